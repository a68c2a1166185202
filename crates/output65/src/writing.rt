//! Writes files to a store.

ghost use Rattle.std.specs.Prelude.{◌≡◌, ◌≢◌, ◌<◌, length, slice_get, [], Some, OnOk, OnErr, IfErr, IfSome, IsErrOf};
ghost use Rattle.std.specs.FinMap as map;
ghost use Rattle.base65.specs.Store.{FailedOn, RelatesFiles, PropagatesIoError, PropagatesIoErrors};
ghost use Rattle.base65.specs.declared.output.OutputFile.{OutputFile};
ghost use Rattle.output65.specs.RunEffects.{IsPartlyWritten, WritesPrefix, with_outputs, is_failure};

use base65::{OutputFile, Store, StoreFault};

/// Writes a whole file. After an error the file has a first part of the bytes, or is unchanged.
pub fn write_file<S: Store>(store: &mut S, name: &str, bytes: &[u8]) -> Result<(), StoreFault>
    ensures ok { OnOk result (RelatesFiles (λ old new. new ≡ map.insert old name.now bytes.now)
        (S.files store.old) (S.files store.new)) }
    ensures err { OnErr result (RelatesFiles (λ old new. IsPartlyWritten old name.now bytes.now new)
        (S.files store.old) (S.files store.new)) }
    // A file that was created exists.
    ensures there { IfSome (S.files store.old) (λ m. IsErrOf result StoreFault.FileNotFound → ⊥) }
    ensures count { PropagatesIoError StoreFault.FileError (S.failures store.old)
        (S.failures store.new) result }
    ensures last_failure { IsErrOf result StoreFault.FileError →
        FailedOn (S.last_failure store.new) name.now }
{
    store.create(name)?;
    let mut rest = bytes;
    'writing: while !rest.is_empty() {
        let n = store.append(name, rest)?;
        rest = &rest[n..];
    }
    Ok(())
}

/// The error of an output that isn't written, with its index among the outputs.
#[derive(Clone, Copy)]
pub struct WriteError {
    pub index: usize,
    pub fault: StoreFault,
}

/// Writes outputs in order. After an error the outputs before that one are written, it is written in part or
/// not at all, and no later one is.
pub fn write_outputs<S: Store>(store: &mut S, outputs: &[OutputFile]) -> Result<(), WriteError>
    ensures ok { OnOk result (RelatesFiles (λ old new. new ≡ with_outputs outputs.now old)
        (S.files store.old) (S.files store.new)) }
    ensures err { IfErr result (λ e.
        RelatesFiles (WritesPrefix outputs.now e.index) (S.files store.old) (S.files store.new)) }
    ensures index { IfErr result (λ e. e.index < length outputs.now) }
    ensures there { IfSome (S.files store.old) (λ m.
        IfErr result (λ e. e.fault ≢ StoreFault.FileNotFound)) }
    ensures count { PropagatesIoErrors is_failure (S.failures store.old)
        (S.failures store.new) result }
    ensures last_failure { (file : OutputFile) → IfErr result (λ e. e.fault ≡ StoreFault.FileError →
        slice_get outputs.now e.index ≡ Some file → FailedOn (S.last_failure store.new) file.name) }
    ensures untouched { outputs.now ≡ [] → S.last_failure store.new ≡ S.last_failure store.old }
{
    for (index, output) in outputs.iter().enumerate() {
        if let Err(fault) = write_file(store, output.name.as_str(), output.bytes.as_slice()) {
            return Err(WriteError { index, fault });
        }
    }
    Ok(())
}
