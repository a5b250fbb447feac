//! Files and sinks, in memory and outside: that calls succeed, and what files and writers outside do.
ghost use Rattle.std.specs.Prelude.{◌≡◌, ◌++◌, codes, decimal};
ghost use Rattle.std.specs.Fmt.{signed_decimal};
ghost use Rattle.std.specs.List.{flat_map};
ghost use Rattle.mate_files.specs.Pen.{Prints};
ghost use Rattle.mate_files.specs.Sink.{Puts};

use mate_files::{
    FILE_MAX, Files, FilesFault, MemFiles, MemSink, OsFiles, OsSink, Pen, Sink, SinkFault,
};
use std::fs::File;
use std::io::Write;
use std::process::Abort;
use std::test::Fail;
use std::{fs, io};

// A caller that prints a line for each number of a node and its value.
fn print_readings<S: Sink>(out: &mut S, readings: &[(u64, i16)]) -> Result<(), SinkFault>
    ensures { Puts (S.written out.old) (S.faults out.old) (S.written out.new) (S.faults out.new) result
        (flat_map (λ r. codes "node " ++ decimal r.0 ++ codes ": " ++ signed_decimal r.1 ++ codes "\n") readings.now) }
{
    let mut pen = Pen::new();
    for reading in readings {
        print_line(&mut pen, out, reading);
    }
    pen.finish()
}

fn print_line<S: Sink>(pen: &mut Pen, out: &mut S, reading: &(u64, i16))
    ensures { Prints (S.written out.old) (S.faults out.old) pen.old.result
        (S.written out.new) (S.faults out.new) pen.new.result
        (codes "node " ++ decimal reading.now.0 ++ codes ": " ++ signed_decimal reading.now.1 ++ codes "\n") }
{
    pen.text(out, "node ");
    pen.number(out, reading.0);
    pen.text(out, ": ");
    pen.signed(out, reading.1);
    pen.text(out, "\n");
}

// Why a file wasn't read, for a test that fails because of it.
fn words(fault: FilesFault) -> &'static str {
    match fault {
        FilesFault::Failed => "the file can't be read",
        FilesFault::TooLarge { .. } => "the file is too large",
        FilesFault::NoMemory => "no memory is left",
    }
}

#[test]
fn mem_files(rt: HostRuntime) -> Result<(), Fail> {
    let mut files = MemFiles::new(rt.alloc());
    let most = vec![in rt.alloc(); 7u8; FILE_MAX]?;
    let more = vec![in rt.alloc(); 7u8; FILE_MAX + 1]?;
    files.add("a", b"first").map_err(words)?;
    files.add("a", b"second").map_err(words)?;
    files.add("most", &most).map_err(words)?;
    files.add("more", &more).map_err(words)?;
    files.fail_at(4).map_err(words)?;
    let read = files.read("a").map_err(words)?;
    assert_eq!(rt; read.as_slice(), b"second".as_slice());
    assert!(rt; matches!(files.read("b"), Err(FilesFault::Failed)));
    assert_eq!(rt; files.read("most").map_err(words)?.len(), FILE_MAX);
    assert!(rt;
        matches!(files.read("a"), Err(FilesFault::Failed)),
        "the fourth call"
    );
    assert!(rt;
        matches!(
            files.read("more"),
            Err(FilesFault::TooLarge { len: 1_048_577 })
        )
    );
    Ok(())
}

#[test]
fn mem_sink(rt: HostRuntime) -> Result<(), Fail> {
    let mut sink = MemSink::new(rt.alloc());
    sink.fail_at(2)?;
    sink.put(b"ab")?;
    assert!(rt; matches!(sink.put(b"cd"), Err(SinkFault::Failed)));
    sink.put(b"ef")?;
    assert_eq!(rt; sink.bytes(), b"abef".as_slice());
    Ok(())
}

#[test]
fn os_files(rt: HostRuntime) -> Result<(), Fail> {
    let name = "mate_files_os_files.tmp";
    let mut files = OsFiles::new(rt.alloc(), &rt);
    for len in [0, 1, 4096, 10_000, FILE_MAX, FILE_MAX + 1] {
        let mut bytes = vec![in rt.alloc(); 7u8; len]?;
        if let Some(last) = bytes.last_mut() {
            *last = 9;
        }
        fs::write(&rt, name, bytes.as_slice())?;
        let read = files.read(name);
        fs::remove_file(&rt, name)?;
        match read {
            Ok(read) => assert_eq!(rt; read.as_slice(), bytes.as_slice(), "at {len}"),
            Err(fault) => {
                assert_eq!(rt; len, FILE_MAX + 1);
                assert!(rt; matches!(fault, FilesFault::TooLarge { len: 1_048_577 }));
            }
        }
    }
    assert!(rt;
        matches!(files.read(name), Err(FilesFault::Failed)),
        "the file is gone"
    );
    assert!(rt;
        matches!(files.read("."), Err(FilesFault::Failed)),
        "a folder"
    );
    Ok(())
}

// A writer that takes at most two bytes a call, and only as many as it has room for.
#[derive(Drop)]
struct Narrow {
    taken: Vec<u8>,
    room: usize,
}

impl Write for Narrow {
    fn write(&mut self, buf: &[u8]) -> io::Result<usize> {
        let count = buf.len().min(2).min(self.room);
        self.taken.extend_from_slice(&buf[..count])?;
        self.room -= count;
        Ok(count)
    }

    fn flush(&mut self) -> io::Result<()> {
        Ok(())
    }
}

#[test]
fn os_sink(rt: HostRuntime) -> Result<(), Fail> {
    let name = "mate_files_os_sink.tmp";
    let mut sink = OsSink::new(File::create(&rt, name)?);
    sink.put(b"one ")?;
    sink.put(b"")?;
    sink.put(b"two")?;
    drop(sink.into_inner());
    let read = OsFiles::new(rt.alloc(), &rt).read(name);
    fs::remove_file(&rt, name)?;
    assert_eq!(rt; read.map_err(words)?.as_slice(), b"one two".as_slice());

    let taken = Vec::new(rt.alloc());
    let mut narrow = OsSink::new(Narrow { taken, room: 8 });
    narrow.put(b"three")?;
    assert!(rt;
        matches!(narrow.put(b"four"), Err(SinkFault::Failed)),
        "room for three"
    );
    assert!(rt;
        matches!(narrow.put(b"five"), Err(SinkFault::Failed)),
        "room for none"
    );
    assert_eq!(rt;
        narrow.into_inner().taken.as_slice(),
        b"threefou".as_slice()
    );
    Ok(())
}

#[test]
fn pen(rt: HostRuntime) -> Result<(), Fail> {
    let readings = [(0, -32_768), (18_446_744_073_709_551_615, 7)];
    let text = "node 0: -32768\nnode 18446744073709551615: 7\n";
    let mut sink = MemSink::new(rt.alloc());
    print_readings(&mut sink, &readings)?;
    assert_eq!(rt; sink.bytes(), text.as_bytes());

    let mut failing = MemSink::new(rt.alloc());
    failing.fail_at(4)?;
    let printed = print_readings(&mut failing, &readings);
    assert!(rt; matches!(printed, Err(SinkFault::Failed)));
    assert_eq!(rt; failing.bytes(), b"node 0: ".as_slice());

    let mut sink = MemSink::new(rt.alloc());
    let mut pen = Pen::new();
    pen.hex_byte(&mut sink, 10);
    pen.bytes(&mut sink, b" ");
    pen.hex(&mut sink, &[0x5f; 65]);
    pen.finish()?;
    assert_eq!(rt; sink.bytes().len(), 133);
    assert_eq!(rt; &sink.bytes()[..6], b"0a 5f5".as_slice());
    assert_eq!(rt; &sink.bytes()[129..], b"5f5f".as_slice());
    Ok(())
}
