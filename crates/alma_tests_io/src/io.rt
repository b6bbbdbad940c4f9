// The fakes in memory, what is read and written whole over them, and the adapters over the real
// system.
use alma_base::NoMemory;
use alma_io::{
    Failed, Fetch, Files, MemFiles, MemSink, MemSource, ReadAll, Sink, SinkBuffer, Source,
    StdFiles, StdSink, StdSource, StoreFault, WriteFault, read_all, write_all,
};
use std::alloc::{Alloc, Allocator, Global};
use std::io::{ErrorKind, Read, Seek, SeekFrom, Write};
use std::path::PathBuf;
use std::test::Fail;
use std::{fs, io};

// How much of a file one call reads.
const CHUNK: u32 = 65_536;

/// A reader and writer that is interrupted at the first call, moves one byte at the second, and
/// then fails.
#[derive(Drop)]
struct Flaky {
    calls: u8,
}

impl Flaky {
    fn next(&mut self) -> io::Result<()> {
        self.calls = self.calls.saturating_add(1);
        match self.calls {
            1 => Err(io::Error::from(ErrorKind::Interrupted)),
            2 => Ok(()),
            _ => Err(io::Error::from(ErrorKind::BrokenPipe)),
        }
    }
}

impl Read for Flaky {
    fn read(&mut self, buf: &mut [u8]) -> io::Result<usize> {
        self.next()?;
        match buf {
            [first, ..] => {
                *first = b'x';
                Ok(1)
            }
            [] => Ok(0),
        }
    }
}

impl Write for Flaky {
    fn write(&mut self, piece: &[u8]) -> io::Result<usize> {
        self.next()?;
        Ok(piece.len().min(1))
    }

    fn flush(&mut self) -> io::Result<()> {
        Ok(())
    }
}

// What three reads of two bytes at most answer.
fn three_reads<S: Source>(source: &mut S) -> [Result<usize, Failed>; 3] {
    let mut buf = [0u8; 2];
    let first = source.read(&mut buf);
    let second = source.read(&mut buf);
    [first, second, source.read(&mut buf)]
}

#[test]
fn a_reader_is_read_to_its_end(rt: HostRuntime) {
    let mut source = StdSource::new(b"abc".as_slice());
    assert_eq!(rt; three_reads(&mut source), [Ok(2), Ok(1), Ok(0)]);
}

#[test]
fn a_reader_is_read_to_its_fault(rt: HostRuntime) {
    let mut source = StdSource::new(Flaky { calls: 0 });
    assert_eq!(rt; three_reads(&mut source), [Ok(1), Err(Failed), Err(Failed)]);
}

// What writes of three pieces answer.
fn three_writes<W: Write>(writer: &mut W, pieces: [&[u8]; 3]) -> [Result<usize, Failed>; 3] {
    let mut sink = StdSink::new(writer);
    let first = sink.write(pieces[0]);
    let second = sink.write(pieces[1]);
    [first, second, sink.write(pieces[2])]
}

#[test]
fn a_writer_takes_each_piece(rt: HostRuntime) {
    let mut bytes = Vec::new(rt.alloc());
    let taken = three_writes(&mut bytes, [b"abc", b"de", b"f"]);
    assert_eq!(rt;
        (taken, bytes.as_slice()),
        ([Ok(3), Ok(2), Ok(1)], b"abcdef".as_slice())
    );
}

#[test]
fn a_writer_is_written_until_its_fault(rt: HostRuntime) {
    let mut flaky = Flaky { calls: 0 };
    let taken = three_writes(&mut flaky, [b"abc", b"abc", b"abc"]);
    assert_eq!(rt; taken, [Ok(1), Err(Failed), Err(Failed)]);
}

// Whether a fetch answers this.
fn fetches<F: Files>(
    files: &mut F,
    alloc: Global,
    name: &str,
    limit: u32,
    want: Result<&[u8], Fetch>,
) -> bool {
    match files.fetch(alloc, name, limit as usize) {
        Ok(bytes) => want == Ok(bytes.as_slice()),
        Err(fault) => want == Err(fault),
    }
}

// Whether bytes of this length are stored, fetched whole, and too many for a lower limit.
fn keeps<F: Files>(files: &mut F, alloc: Global, name: &str, bytes: &[u8], len: u32) -> [bool; 3] {
    let is_stored = files.store(alloc, name, bytes) == Ok(());
    let is_whole = fetches(files, alloc, name, len, Ok(bytes));
    let want = if len > 0 {
        Err(Fetch::TooLong)
    } else {
        Ok(bytes)
    };
    let shorter = len.saturating_sub(1);
    [
        is_stored,
        is_whole,
        fetches(files, alloc, name, shorter, want),
    ]
}

// The same of so many bytes in a file of the system.
fn system_keeps<R: fs::Files>(
    rt: &R,
    alloc: Global,
    name: &str,
    len: u32,
) -> Result<[bool; 3], NoMemory> {
    let bytes = vec![in alloc; 7; len as usize]?;
    Ok(keeps(&mut StdFiles::new(rt), alloc, name, &bytes, len))
}

#[test]
fn a_file_is_stored_and_fetched_up_to_its_limit(rt: HostRuntime) -> Result<(), Fail> {
    let name = "alma_io_test.bin";
    for len in [0, 5, CHUNK, CHUNK + 1, 1_048_576] {
        let kept = system_keeps(&rt, rt.alloc(), name, len)?;
        assert_eq!(rt; kept, [true; 3], "{len} bytes");
    }
    fs::remove_file(&rt, name)?;
    Ok(())
}

#[test]
fn a_file_that_is_not_there_is_a_failed_fetch(rt: HostRuntime) {
    let mut files = StdFiles::new(&rt);
    let fetched = files.fetch(rt.alloc(), "alma_io_absent.bin", 9).err();
    assert_eq!(rt; fetched, Some(Fetch::Failed));
}

// How a store in the file system ends.
fn store<R: fs::Files>(rt: &R, alloc: Global, name: &str, bytes: &[u8]) -> Result<(), StoreFault> {
    StdFiles::new(rt).store(alloc, name, bytes)
}

#[test]
fn no_file_is_stored_in_a_folder_that_is_not_there(rt: HostRuntime) {
    let stored = store(&rt, rt.alloc(), "no_folder/x", b"x");
    assert_eq!(rt; stored, Err(StoreFault::Failed));
}

/// The file system on a disk where each file takes four bytes.
#[derive(Drop)]
struct FullDisk<'r, R: fs::Files> {
    rt: &'r R,
}

#[derive(Drop)]
struct FullFile<F: Drop> {
    file: F,
    room: usize,
}

impl<F: Read + Drop> Read for FullFile<F> {
    fn read(&mut self, buf: &mut [u8]) -> io::Result<usize> {
        self.file.read(buf)
    }
}

impl<F: Write + Drop> Write for FullFile<F> {
    fn write(&mut self, piece: &[u8]) -> io::Result<usize> {
        let len = self.room.min(piece.len());
        if len == 0 {
            return Err(io::Error::from(ErrorKind::StorageFull));
        }
        let count = self.file.write(&piece[..len])?;
        self.room = self.room.saturating_sub(count);
        Ok(count)
    }

    fn flush(&mut self) -> io::Result<()> {
        self.file.flush()
    }
}

impl<F: Seek + Drop> Seek for FullFile<F> {
    fn seek(&mut self, pos: SeekFrom) -> io::Result<u64> {
        self.file.seek(pos)
    }
}

impl<F: fs::OpenFile + Drop> fs::OpenFile for FullFile<F> {
    fn metadata(&self) -> io::Result<fs::Metadata> {
        self.file.metadata()
    }

    fn set_len(&self, size: u64) -> io::Result<()> {
        self.file.set_len(size)
    }

    fn sync_all(&self) -> io::Result<()> {
        self.file.sync_all()
    }

    fn sync_data(&self) -> io::Result<()> {
        self.file.sync_data()
    }
}

impl<R: fs::Files> fs::Files for FullDisk<'_, R> {
    type File = FullFile<R::File>;

    type Dir = R::Dir;

    fn open_file(&self, how: &fs::OpenOptions, path: &str) -> io::Result<FullFile<R::File>> {
        let file = self.rt.open_file(how, path)?;
        Ok(FullFile { file, room: 4 })
    }

    fn open_dir(&self, path: &str) -> io::Result<R::Dir> {
        self.rt.open_dir(path)
    }

    fn metadata(&self, path: &str) -> io::Result<fs::Metadata> {
        self.rt.metadata(path)
    }

    fn symlink_metadata(&self, path: &str) -> io::Result<fs::Metadata> {
        self.rt.symlink_metadata(path)
    }

    fn copy(&self, from: &str, to: &str) -> io::Result<u64> {
        self.rt.copy(from, to)
    }

    fn rename(&self, from: &str, to: &str) -> io::Result<()> {
        self.rt.rename(from, to)
    }

    fn remove_file(&self, path: &str) -> io::Result<()> {
        self.rt.remove_file(path)
    }

    fn create_dir(&self, path: &str) -> io::Result<()> {
        self.rt.create_dir(path)
    }

    fn remove_dir(&self, path: &str) -> io::Result<()> {
        self.rt.remove_dir(path)
    }

    fn remove_dir_all<B: Allocator>(&self, alloc: B, path: &str) -> io::Result<()> {
        self.rt.remove_dir_all(alloc, path)
    }

    fn set_permissions(&self, path: &str, permissions: fs::Permissions) -> io::Result<()> {
        self.rt.set_permissions(path, permissions)
    }

    fn canonicalize<B: Allocator>(&self, alloc: B, path: &str) -> io::Result<PathBuf<B>> {
        self.rt.canonicalize(alloc, path)
    }

    fn read_link<B: Allocator>(&self, alloc: B, path: &str) -> io::Result<PathBuf<B>> {
        self.rt.read_link(alloc, path)
    }

    fn hard_link(&self, original: &str, link: &str) -> io::Result<()> {
        self.rt.hard_link(original, link)
    }

    fn symlink(&self, original: &str, link: &str) -> io::Result<()> {
        self.rt.symlink(original, link)
    }

    fn chown(&self, path: &str, uid: Option<u32>, gid: Option<u32>) -> io::Result<()> {
        self.rt.chown(path, uid, gid)
    }

    fn lchown(&self, path: &str, uid: Option<u32>, gid: Option<u32>) -> io::Result<()> {
        self.rt.lchown(path, uid, gid)
    }

    fn create_dir_with_mode(&self, path: &str, mode: u32) -> io::Result<()> {
        self.rt.create_dir_with_mode(path, mode)
    }
}

// How a store of `older` ends, and then one over it on the full disk.
fn store_on_full<R: fs::Files>(
    rt: &R,
    alloc: Global,
    name: &str,
    bytes: &[u8],
) -> [Result<(), StoreFault>; 2] {
    let older = store(rt, alloc, name, b"older");
    let disk = FullDisk { rt };
    [older, store(&disk, alloc, name, bytes)]
}

// Whether a file holds these bytes.
fn holds<R: fs::Files + Alloc>(rt: &R, name: &str, bytes: &[u8]) -> io::Result<bool> {
    let found = fs::read(rt, name)?;
    Ok(found.as_slice() == bytes)
}

// Whether a file holds these bytes, and whether a part is there. The file goes.
fn left_by<R: fs::Files + Alloc>(
    rt: &R,
    name: &str,
    part: &str,
    bytes: &[u8],
) -> io::Result<(bool, bool)> {
    let is_held = holds(rt, name, bytes)?;
    let has_part = fs::exists(rt, part)?;
    fs::remove_file(rt, name)?;
    Ok((is_held, has_part))
}

#[test]
fn a_full_disk_keeps_the_old_file(rt: HostRuntime) -> Result<(), Fail> {
    let name = "alma_io_full.bin";
    let stored = store_on_full(&rt, rt.alloc(), name, b"newer");
    let left = left_by(&rt, name, "alma_io_full.bin.part", b"older")?;
    let faults = [Ok(()), Err(StoreFault::Failed)];
    assert_eq!(rt; (stored, left), (faults, (true, false)));
    Ok(())
}

#[test]
fn a_file_that_the_disk_takes_stands_for_the_old_one(rt: HostRuntime) -> Result<(), Fail> {
    let name = "alma_io_fits.bin";
    let stored = store_on_full(&rt, rt.alloc(), name, b"new");
    let left = left_by(&rt, name, "alma_io_fits.bin.part", b"new")?;
    assert_eq!(rt; (stored, left), ([Ok(()); 2], (true, false)));
    Ok(())
}

// How a store over a file ends beside which a part stands.
fn store_beside<R: fs::Files>(
    rt: &R,
    alloc: Global,
    name: &str,
    part: &str,
) -> io::Result<Result<(), StoreFault>> {
    fs::write(rt, name, b"older")?;
    fs::write(rt, part, b"another")?;
    Ok(store(rt, alloc, name, b"straight"))
}

// Whether the file has what was stored, and the part is as it was. Both go.
fn are_left<R: fs::Files + Alloc>(rt: &R, name: &str, part: &str) -> io::Result<[bool; 2]> {
    let is_stored = holds(rt, name, b"straight")?;
    let is_kept = holds(rt, part, b"another")?;
    fs::remove_file(rt, part)?;
    fs::remove_file(rt, name)?;
    Ok([is_stored, is_kept])
}

#[test]
fn a_part_of_another_stays_and_the_file_is_written_straight(rt: HostRuntime) -> Result<(), Fail> {
    let name = "alma_io_part.bin";
    let part = "alma_io_part.bin.part";
    let stored = store_beside(&rt, rt.alloc(), name, part)?;
    let left = are_left(&rt, name, part)?;
    assert_eq!(rt; (stored, left), (Ok(()), [true; 2]));
    Ok(())
}

struct Whole {
    piece: usize,
    fails: &'static [u64],
    limit: u32,
    // What two calls in a row make of "abcdef".
    outcomes: [Result<&'static [u8], ReadAll>; 2],
}

const WHOLE_ROWS: [Whole; 6] = [
    Whole {
        piece: 6,
        fails: &[],
        limit: 6,
        outcomes: [Ok(b"abcdef"), Ok(b"")],
    },
    Whole {
        piece: 1,
        fails: &[8],
        limit: 9,
        outcomes: [Ok(b"abcdef"), Err(ReadAll::Fault)],
    },
    Whole {
        piece: 4,
        fails: &[],
        limit: 5,
        outcomes: [Err(ReadAll::TooLong), Ok(b"")],
    },
    Whole {
        piece: 2,
        fails: &[],
        limit: 3,
        outcomes: [Err(ReadAll::TooLong), Ok(b"ef")],
    },
    Whole {
        piece: 2,
        fails: &[3],
        limit: 6,
        outcomes: [Err(ReadAll::Fault), Ok(b"ef")],
    },
    Whole {
        piece: 4,
        fails: &[3],
        limit: 6,
        outcomes: [Err(ReadAll::Fault), Ok(b"")],
    },
];

// Whether reading all answers this.
fn reads_all<S: Source>(
    source: &mut S,
    alloc: Global,
    limit: u32,
    want: Result<&[u8], ReadAll>,
) -> bool {
    match read_all(alloc, source, limit as usize) {
        Ok(bytes) => want == Ok(bytes.as_slice()),
        Err(fault) => want == Err(fault),
    }
}

// Whether the two calls of a row have its outcomes.
fn reads_twice(alloc: Global, row: &Whole) -> Result<[bool; 2], NoMemory> {
    let mut source = MemSource::new(alloc, b"abcdef", row.piece.max(1), row.fails)?;
    let first = reads_all(&mut source, alloc, row.limit, row.outcomes[0]);
    let second = reads_all(&mut source, alloc, row.limit, row.outcomes[1]);
    Ok([first, second])
}

#[test]
fn all_is_read_or_the_limit_or_a_fault_is_met(rt: HostRuntime) -> Result<(), Fail> {
    for (number, row) in WHOLE_ROWS.iter().enumerate() {
        let found = reads_twice(rt.alloc(), row)?;
        assert_eq!(rt; found, [true; 2], "row {number}");
    }
    Ok(())
}

struct Written {
    room: usize,
    piece: usize,
    fails: &'static [u64],
    outcome: Result<(), WriteFault>,
    bytes: &'static [u8],
}

const WRITTEN_ROWS: [Written; 6] = [
    Written {
        room: 6,
        piece: 6,
        fails: &[],
        outcome: Ok(()),
        bytes: b"abcdef",
    },
    Written {
        room: 9,
        piece: 1,
        fails: &[],
        outcome: Ok(()),
        bytes: b"abcdef",
    },
    Written {
        room: 9,
        piece: 4,
        fails: &[3],
        outcome: Ok(()),
        bytes: b"abcdef",
    },
    Written {
        room: 9,
        piece: 4,
        fails: &[2],
        outcome: Err(WriteFault { written: 4 }),
        bytes: b"abcd",
    },
    Written {
        room: 9,
        piece: 2,
        fails: &[1],
        outcome: Err(WriteFault { written: 0 }),
        bytes: b"",
    },
    Written {
        room: 5,
        piece: 2,
        fails: &[],
        outcome: Err(WriteFault { written: 5 }),
        bytes: b"abcde",
    },
];

// How the write of a row ends, and whether the sink has its bytes then.
fn write_row(alloc: Global, row: &Written) -> Result<(Result<(), WriteFault>, bool), NoMemory> {
    let mut sink = MemSink::new(alloc, row.room, row.piece.max(1), row.fails)?;
    let outcome = write_all(&mut sink, b"abcdef");
    Ok((outcome, sink.bytes() == row.bytes))
}

#[test]
fn all_is_written_or_the_front_that_went_out(rt: HostRuntime) -> Result<(), Fail> {
    for (number, row) in WRITTEN_ROWS.iter().enumerate() {
        let found = write_row(rt.alloc(), row)?;
        assert_eq!(rt; found, (row.outcome, true), "row {number}");
    }
    Ok(())
}

// A buffer has no room for this text.
const LONG_TEXT: [u8; 5_000] = [b'x'; 5_000];

// What is handed to a buffer: 4,096 bytes wait, and the next one finds no room.
const PIECES: [&[u8]; 5] = [b"ab", &[b'x'; 4_094], b"c", &LONG_TEXT, b"de"];

struct Buffered {
    // How many of the pieces are handed over, and whether what waits goes out behind them.
    count: usize,
    is_flushed: bool,
    // The write that fails, from 1.
    fails: u64,
    outcome: Result<(), Failed>,
    // How many bytes the sink has then.
    written: usize,
}

const BUFFERED_ROWS: [Buffered; 9] = [
    Buffered {
        count: 2,
        is_flushed: false,
        fails: 9,
        outcome: Ok(()),
        written: 0,
    },
    Buffered {
        count: 3,
        is_flushed: false,
        fails: 9,
        outcome: Ok(()),
        written: 4_096,
    },
    Buffered {
        count: 5,
        is_flushed: false,
        fails: 9,
        outcome: Ok(()),
        written: 9_097,
    },
    Buffered {
        count: 5,
        is_flushed: true,
        fails: 9,
        outcome: Ok(()),
        written: 9_099,
    },
    Buffered {
        count: 0,
        is_flushed: true,
        fails: 1,
        outcome: Ok(()),
        written: 0,
    },
    Buffered {
        count: 5,
        is_flushed: true,
        fails: 4,
        outcome: Err(Failed),
        written: 9_097,
    },
    Buffered {
        count: 5,
        is_flushed: true,
        fails: 3,
        outcome: Err(Failed),
        written: 4_097,
    },
    Buffered {
        count: 5,
        is_flushed: true,
        fails: 2,
        outcome: Err(Failed),
        written: 4_096,
    },
    Buffered {
        count: 5,
        is_flushed: true,
        fails: 1,
        outcome: Err(Failed),
        written: 0,
    },
];

// Hands the pieces of a row to a buffer.
fn write_pieces(sink: &mut MemSink, row: &Buffered) -> Result<(), Failed> {
    let mut buffer = SinkBuffer::new();
    for piece in PIECES.iter().take(row.count) {
        buffer.write(piece, sink)?;
    }
    if row.is_flushed {
        return buffer.flush(sink);
    }
    Ok(())
}

// How that ends, and how many bytes the sink has then.
fn buffer_row(alloc: Global, row: &Buffered) -> Result<(Result<(), Failed>, usize), NoMemory> {
    let mut sink = MemSink::new(alloc, 9_999, 9_999, &[row.fails])?;
    let outcome = write_pieces(&mut sink, row);
    Ok((outcome, sink.bytes().len()))
}

#[test]
fn short_pieces_go_out_together(rt: HostRuntime) -> Result<(), Fail> {
    for (number, row) in BUFFERED_ROWS.iter().enumerate() {
        let found = buffer_row(rt.alloc(), row)?;
        assert_eq!(rt; found, (row.outcome, row.written), "row {number}");
    }
    Ok(())
}

struct Stored {
    fails: &'static [u64],
    stored: Result<(), StoreFault>,
    name: &'static str,
    limit: u32,
    fetched: Result<&'static [u8], Fetch>,
    got: Option<&'static [u8]>,
}

const STORED_ROWS: [Stored; 7] = [
    Stored {
        fails: &[],
        stored: Ok(()),
        name: "b.al",
        limit: 5,
        fetched: Ok(b"later"),
        got: Some(b"later"),
    },
    Stored {
        fails: &[],
        stored: Ok(()),
        name: "b.al",
        limit: 4,
        fetched: Err(Fetch::TooLong),
        got: Some(b"later"),
    },
    Stored {
        fails: &[],
        stored: Ok(()),
        name: "a.al",
        limit: 5,
        fetched: Ok(b"first"),
        got: Some(b"first"),
    },
    Stored {
        fails: &[],
        stored: Ok(()),
        name: "c.al",
        limit: 5,
        fetched: Err(Fetch::Absent),
        got: None,
    },
    Stored {
        fails: &[1],
        stored: Err(StoreFault::Failed),
        name: "b.al",
        limit: 5,
        fetched: Ok(b"other"),
        got: Some(b"other"),
    },
    Stored {
        fails: &[2],
        stored: Ok(()),
        name: "b.al",
        limit: 5,
        fetched: Err(Fetch::Failed),
        got: Some(b"later"),
    },
    Stored {
        fails: &[1, 2],
        stored: Err(StoreFault::Failed),
        name: "c.al",
        limit: 5,
        fetched: Err(Fetch::Failed),
        got: None,
    },
];

// Puts the files in that are there before a row.
fn put_two(files: &mut MemFiles, alloc: Global) -> Result<(), NoMemory> {
    files.put(alloc, "a.al", b"first")?;
    files.put(alloc, "b.al", b"other")
}

// Whether a file has these bytes, or is not there where there are none.
fn has(files: &MemFiles, name: &str, want: Option<&[u8]>) -> bool {
    match files.get(name) {
        Some(bytes) => want == Some(bytes),
        None => want.is_none(),
    }
}

// How a file is stored, and whether what is fetched and got behind that is as the row says.
type Shown = (Result<(), StoreFault>, bool, bool);

// What a row shows.
fn show_files(files: &mut MemFiles, alloc: Global, row: &Stored) -> Shown {
    let stored = files.store(alloc, "b.al", b"later");
    let is_fetched = fetches(files, alloc, row.name, row.limit, row.fetched);
    (stored, is_fetched, has(files, row.name, row.got))
}

// What a row shows of files of its own.
fn files_of(alloc: Global, row: &Stored) -> Result<Shown, NoMemory> {
    let mut files = MemFiles::new(alloc, row.fails)?;
    put_two(&mut files, alloc)?;
    Ok(show_files(&mut files, alloc, row))
}

#[test]
fn files_are_stored_and_fetched_and_fail_as_listed(rt: HostRuntime) -> Result<(), Fail> {
    for (number, row) in STORED_ROWS.iter().enumerate() {
        let found = files_of(rt.alloc(), row)?;
        assert_eq!(rt; found, (row.stored, true, true), "row {number}");
    }
    Ok(())
}

struct Taken {
    room: usize,
    piece: usize,
    fails: &'static [u64],
    // How many bytes each write of "abc" takes, and None where it fails.
    writes: &'static [Option<usize>],
    bytes: &'static [u8],
}

const TAKEN_ROWS: [Taken; 4] = [
    Taken {
        room: 9,
        piece: 9,
        fails: &[],
        writes: &[Some(3), Some(3)],
        bytes: b"abcabc",
    },
    Taken {
        room: 9,
        piece: 2,
        fails: &[1, 3],
        writes: &[None, Some(2), None, Some(2)],
        bytes: b"abab",
    },
    Taken {
        room: 4,
        piece: 9,
        fails: &[],
        writes: &[Some(3), Some(1), None, None],
        bytes: b"abca",
    },
    Taken {
        room: 0,
        piece: 1,
        fails: &[],
        writes: &[None],
        bytes: b"",
    },
];

// Whether writes of "abc" take as much as is listed, each in turn.
fn takes<K: Sink>(sink: &mut K, writes: &[Option<usize>]) -> bool {
    for want in writes {
        if sink.write(b"abc").ok() != *want {
            return false;
        }
    }
    true
}

// Whether the writes of a row take as much as is listed, and whether the sink has its bytes then.
fn sink_takes(alloc: Global, row: &Taken) -> Result<(bool, bool), NoMemory> {
    let mut sink = MemSink::new(alloc, row.room, row.piece.max(1), row.fails)?;
    let takes = takes(&mut sink, row.writes);
    Ok((takes, sink.bytes() == row.bytes))
}

#[test]
fn a_sink_takes_pieces_and_fails_as_listed_or_full(rt: HostRuntime) -> Result<(), Fail> {
    for (number, row) in TAKEN_ROWS.iter().enumerate() {
        let found = sink_takes(rt.alloc(), row)?;
        assert_eq!(rt; found, (true, true), "row {number}");
    }
    Ok(())
}

struct Given {
    piece: usize,
    fails: &'static [u64],
    // What each read of "abcde" gives, and None where it fails.
    reads: &'static [Option<&'static [u8]>],
}

const GIVEN_ROWS: [Given; 4] = [
    Given {
        piece: 9,
        fails: &[],
        reads: &[Some(b"abc"), Some(b"de"), Some(b""), Some(b"")],
    },
    Given {
        piece: 2,
        fails: &[],
        reads: &[Some(b"ab"), Some(b"cd"), Some(b"e"), Some(b"")],
    },
    Given {
        piece: 2,
        fails: &[2, 3],
        reads: &[Some(b"ab"), None, None, Some(b"cd"), Some(b"e")],
    },
    Given {
        piece: 3,
        fails: &[1, 4],
        reads: &[None, Some(b"abc"), Some(b"de"), None, Some(b"")],
    },
];

// Whether a read of three bytes at most gives these, or fails where there are none.
fn gives_next<S: Source>(source: &mut S, want: Option<&[u8]>) -> bool {
    let mut buf = [0u8; 3];
    match source.read(&mut buf) {
        Ok(count) => want == Some(&buf[..count]),
        Err(Failed) => want.is_none(),
    }
}

// Whether reads give what is listed, each in turn.
fn gives<S: Source>(source: &mut S, reads: &[Option<&[u8]>]) -> bool {
    for want in reads {
        if !gives_next(source, *want) {
            return false;
        }
    }
    true
}

// Whether the reads of a row give what is listed.
fn source_gives(alloc: Global, row: &Given) -> Result<bool, NoMemory> {
    let mut source = MemSource::new(alloc, b"abcde", row.piece.max(1), row.fails)?;
    Ok(gives(&mut source, row.reads))
}

#[test]
fn a_source_gives_pieces_and_fails_as_listed(rt: HostRuntime) -> Result<(), Fail> {
    for (number, row) in GIVEN_ROWS.iter().enumerate() {
        assert!(rt; source_gives(rt.alloc(), row)?, "row {number}");
    }
    Ok(())
}
