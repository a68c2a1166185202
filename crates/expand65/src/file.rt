//! Reads open files through a buffer.

ghost use Rattle.std.specs.Prelude.{◌≡◌, ◌<◌, ◌≤◌, ◌+◌, ◌-◌, ◌++◌, [], min, length, drop, true, false, IsTrue, IfErr, IfOk, IfSome, List, OnOk, ℕ};
ghost use Rattle.std.specs.List.{prefix_len};
ghost use Rattle.base65.specs.Store.{Files, FailedAt};
ghost use Rattle.syntax65.specs.Faults.{is_failure, is_system_error};
ghost use Rattle.expand65.specs.Lines.{IsTerminatedLine, IsFileAfterLines, FailedAtRefill, IsReadingAt, FailedReadFrame, ReadFrame, line_location, file_lines_after, lines_of, IsPiece, ReadsLine, AppendsPiece, bytes_of, is_within_line, remaining_file_lines, rest_of, without_return};

use base65::{ListVec, PathString, Store, StoreFault};
use memchr::memchr;
use std::alloc::Global;
use std::mem;
use syntax65::{ExpandFault, LexFault, MAX_FILE, MAX_LINE};

/// The capacity of the buffer in bytes.
const BUFFER: usize = 4096;

/// The least length of a piece that is copied at once.
const SHORTEST: usize = 32;

/// A file that is read line by line: the buffer, how much of it was consumed, and how many bytes of
/// the file were read.
#[derive(Drop)]
pub struct OpenFile {
    pub name: PathString,
    pub buffer: Vec<u8>,
    pub at: usize,
    pub next: u64,
    /// The number of lines read.
    pub line: u32,
    /// The buffer of an earlier line, for reuse.
    pub spare: Vec<u8>,
}

/// Replaces the buffer by at most `want` bytes of the file, from an offset. A file that doesn't
/// exist counts as empty.
fn read_piece<S: Store>(
    store: &mut S,
    name: &str,
    at: u64,
    max_len: usize,
    bytes: &mut Vec<u8>,
) -> Result<usize, ExpandFault>
    requires { max_len ≤ 4096 }
    ensures read { IfSome (S.files store.old) (λ m.
        IfOk result (λ n. IsPiece (drop at (bytes_of m name.now)) max_len n bytes.new.items)) }
    ensures few { IfOk result (λ n. (n ≤ max_len) × (length bytes.new.items ≡ n)) }
    ensures system_errors { IfErr result (λ e. is_system_error e ≡ true) }
    ensures frame { FailedReadFrame S.files S.failures S.last_failure (λ b. FailedAt b name.now at)
        store.old store.new result }
{
    // If as many bytes were read before, there is nothing to fill.
    bytes.resize(max_len, 0)?;
    let n = match store.read_at(name, at, bytes.as_mut_slice()) {
        Ok(n) => n,
        Err(StoreFault::FileNotFound) => 0,
        Err(fault) => return Err(ExpandFault::from(fault)),
    };
    bytes.truncate(n);
    Ok(n)
}

/// Returns how many bytes to read from offset `at`, after a piece of length `last`. A short piece
/// is mostly the end of a file, so after it only twice as many bytes are allocated, not a whole
/// buffer.
fn piece_size(at: u64, last: usize) -> usize
    ensures few { result ≤ min 4096 (16777216 - at) }
    ensures some { at < 16777216 → 0 < result }
{
    let most = BUFFER.min(MAX_FILE.saturating_sub(at) as usize);
    if at == 0 {
        return most;
    }
    most.min(last.max(SHORTEST).saturating_mul(2))
}

impl OpenFile {
    /// Opens an existing file before its first line.
    pub fn new(alloc: Global, name: PathString) -> Self
        ensures name { result.name ≡ name }
        ensures lines { (m : Files) →
            length (bytes_of m name) ≤ 16777216 → remaining_file_lines m result ≡ file_lines_after 0
            (lines_of (bytes_of m name)) }
        ensures line { result.line ≡ 0 }
        ensures following { (m : Files) → IsFileAfterLines m result 0 }
    {
        OpenFile {
            name,
            buffer: Vec::new(alloc),
            at: 0,
            next: 0,
            line: 0,
            spare: Vec::new(alloc),
        }
    }

    /// Refills the buffer if it is empty.
    fn refill_buffer<S: Store>(&mut self, store: &mut S) -> Result<(), ExpandFault>
        requires all { length self.old.buffer.items ≤ self.old.at }
        requires more { self.old.next < 16777216 }
        ensures kept { IfSome (S.files store.old) (λ m.
            OnOk result (rest_of m self.new ≡ rest_of m self.old)) }
        ensures front { OnOk result (self.new.at ≡ 0) }
        ensures none { IfSome (S.files store.old) (λ m.
            OnOk result (self.new.buffer.items ≡ [] → rest_of m self.new ≡ [])) }
        ensures system_errors { IfErr result (λ e. is_system_error e ≡ true) }
        ensures line { self.new.line ≡ self.old.line }
        ensures name { self.new.name ≡ self.old.name }
        ensures frame { FailedReadFrame S.files S.failures S.last_failure (FailedAtRefill self.old)
            store.old store.new result }
    {
        let max_len = piece_size(self.next, self.buffer.len());
        let n = read_piece(
            store,
            self.name.as_str(),
            self.next,
            max_len,
            &mut self.buffer,
        )?;
        self.at = 0;
        self.next += n as u64;
        Ok(())
    }

    /// Returns whether the file has more bytes, after filling the buffer.
    #[inline(always)]
    pub fn has_more<S: Store>(&mut self, store: &mut S) -> Result<bool, ExpandFault>
        ensures kept { IfSome (S.files store.old) (λ m.
            OnOk result (rest_of m self.new ≡ rest_of m self.old)) }
        ensures more { IfOk result (λ b. IsTrue b → self.new.at < length self.new.buffer.items) }
        ensures none { IfSome (S.files store.old) (λ m.
            IfOk result (λ b. b ≡ false → rest_of m self.new ≡ [])) }
        ensures system_errors { IfErr result (λ e. is_system_error e ≡ true) }
        ensures line { self.new.line ≡ self.old.line }
        ensures name { self.new.name ≡ self.old.name }
        ensures frame { FailedReadFrame S.files S.failures S.last_failure (FailedAtRefill self.old)
            store.old store.new result }
    {
        if self.at < self.buffer.len() {
            return Ok(true);
        }
        // An open file has at most this many bytes.
        if self.next >= MAX_FILE {
            return Ok(false);
        }
        self.refill_buffer(store)?;
        Ok(!self.buffer.is_empty())
    }

    /// Appends the buffered bytes of a line. Returns whether the line is complete.
    fn append_piece(&mut self, line: &mut Vec<u8>) -> Result<bool, ExpandFault>
        requires more { self.old.at < length self.old.buffer.items }
        requires part { prefix_len is_within_line line.old.items ≡ length line.old.items }
        requires few { length line.old.items ≤ 4097 }
        ensures read { (following : List ℕ) →
            AppendsPiece line.old.items (drop self.old.at self.old.buffer.items) following result
            line.new.items (drop self.new.at self.new.buffer.items) }
        ensures part { OnOk result (prefix_len is_within_line line.new.items ≡
            length line.new.items) }
        ensures few { OnOk result (length line.new.items ≤ 4097) }
        ensures no_failure { IfErr result (λ e. is_failure e ≡ false) }
        ensures more { IfOk result (λ ended. ended ≡ false →
            length line.old.items < length line.new.items) }
        ensures ended { IfOk result (λ ended. ended ≡ true →
            IsTerminatedLine (line.old.items ++
            drop self.old.at self.old.buffer.items) line.new.items
            (drop self.new.at self.new.buffer.items)) }
        ensures same { (self.new.name ≡ self.old.name) × (self.new.next ≡ self.old.next) ×
            (self.new.line ≡ self.old.line) }
    {
        let (_, rest) = self.buffer.split_at(self.at);
        let len = line_len(rest);
        if line.len() + len > MAX_LINE + 1 {
            return Err(ExpandFault::Syntax(LexFault::LineTooLong));
        }
        let (piece, following) = rest.split_at(len);
        line.extend_from_slice(piece)?;
        if following.is_empty() {
            self.at += len;
            return Ok(false);
        }
        self.at += len + 1;
        Ok(true)
    }

    /// Reads the next line.
    #[inline(never)]
    pub fn next_line<S: Store>(
        &mut self,
        alloc: Global,
        store: &mut S,
    ) -> Result<ListVec<u8>, ExpandFault>
        requires { self.old.at < length self.old.buffer.items }
        ensures read { IfSome (S.files store.old) (λ m.
            ReadsLine (lines_of (rest_of m self.old)) result (lines_of (rest_of m self.new))) }
        ensures following { IfSome (S.files store.old) (λ m.
            IsFileAfterLines m self.old self.old.line →
            OnOk result (IsFileAfterLines m self.new (self.old.line + 1))) }
        ensures last_failure { IfSome (S.files store.old) (λ m.
            IsFileAfterLines m self.old self.old.line →
            IfErr result (λ e. is_failure e ≡ true → IsReadingAt m (S.last_failure store.new)
            (line_location self.old.name (self.old.line + 1)))) }
        ensures line { self.new.line ≡ self.old.line }
        ensures name { self.new.name ≡ self.old.name }
        ensures frame { ReadFrame S.files S.failures store.old store.new result }
    {
        let mut line = mem::replace(&mut self.spare, Vec::new(alloc));
        line.clear();
        'pieces: loop {
            if self.append_piece(&mut line)? {
                drop_return(&mut line);
                return Ok(ListVec::from_vec(line));
            }
            if !self.has_more(store)? {
                return Ok(ListVec::from_vec(line));
            }
        }
    }
}

/// Removes a CR at the end of a line.
fn drop_return(line: &mut Vec<u8>)
    ensures { line.new.items ≡ without_return line.old.items }
{
    if line.last() == Some(&b'\r') {
        line.pop();
    }
}

/// Returns the number of bytes before the first LF.
pub fn line_len(bytes: &[u8]) -> usize
    ensures count { result ≡ prefix_len is_within_line bytes.now }
    ensures within { result ≤ length bytes.now }
{
    memchr(b'\n', bytes).unwrap_or(bytes.len())
}
