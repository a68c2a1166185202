//! Whole runs of ar65.

use crate::scenes::first_wrong;
use std::test::Fail;

/// Libraries begun, changed, listed and taken apart.
const SCENES: &str = "\
$ ar65 r l.lib
is l.lib 5236356C0100000000

bytes a.o 5236356F010209000300000000434F4445030300A90060080000
bytes y.o 5236356F01080000
bytes d/a.o 5236356F01080000
$ ar65 d l.lib ==> l.lib: Error: file not found
$ ar65 r l.lib d/a.o a.o
is l.lib 5236356C010100000003612E6F1A00000000000000000000005236356F010209000300000000434F4445030300A90060080000
$ ar65 t l.lib ==> a.o
$ ar65 r l.lib d/a.o y.o
$ ar65 r l.lib a.o
$ ar65 t l.lib ==> a.o // y.o
$ ar65 d l.lib y.o z.o ==> l.lib: Error: no such member: z.o
$ ar65 t l.lib ==> a.o // y.o
$ ar65 d l.lib y.o
is l.lib 5236356C010100000003612E6F1A00000000000000000000005236356F010209000300000000434F4445030300A90060080000

bytes x.o 5236356F01080000
bytes y.o 5236356F010209000300000000434F4445030300A90060080000
$ ar65 r l.lib x.o y.o
bytes x.o 5236356F010209000100000000434F4445030100EA080000
$ ar65 r l.lib x.o
$ ar65 t l.lib ==> x.o // y.o
$ ar65 d l.lib z.o ==> l.lib: Error: no such member: z.o
bytes x.o 00
bytes y.o 00
$ ar65 x l.lib
is x.o 5236356F010209000100000000434F4445030100EA080000
is y.o 5236356F010209000300000000434F4445030300A90060080000
$ ar65 d l.lib y.o
is l.lib 5236356C010100000003782E6F1800000000000000000000005236356F010209000100000000434F4445030100EA080000
bytes a.o 5236356F010209000300000000434F4445030300A90060080000
$ ar65 r m.lib a.o
is m.lib 5236356C010100000003612E6F1A00000000000000000000005236356F010209000300000000434F4445030300A90060080000
$ ar65 t m.lib ==> a.o

bytes l.lib 5236356C010100000003612E6F1A00000000000000000000005236356F010209000300000000434F4445030300A90060080000
$ ar65 x l.lib q.o ==> l.lib: Error: no such member: q.o
$ ar65 x l.lib a.o k/q.o ==> l.lib: Error: no such member: q.o
absent a.o
$ ar65 x l.lib
is a.o 5236356F010209000300000000434F4445030300A90060080000

bytes k/ 5236356F01080000
bytes k/.. 00
bytes a\x7f 00
bytes k/a.o 5236356F010209000300000000434F4445030300A900600800
$ ar65 r l.lib k/ ==> k/: Error: bad member name
$ ar65 r l.lib k/.. ==> k/..: Error: bad member name
$ ar65 r l.lib a\x7f ==> a\x7f: Error: bad member name
$ ar65 r l.lib k/a.o ==> k/a.o: Error: member is not an object
absent l.lib

bytes a.o 5236356F010209000300000000434F4445030300A90060080000
$ ar65 r  a.o
is  5236356C010100000003612E6F1A00000000000000000000005236356F010209000300000000434F4445030300A90060080000
";

#[test]
fn scenes(rt: HostRuntime) -> Result<(), Fail> {
    let wrong = first_wrong(rt.alloc(), SCENES)?;
    assert!(rt; wrong.is_none(), "{wrong:?}");
    Ok(())
}
