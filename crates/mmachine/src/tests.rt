//! Tests of commands of which one call fails: what was written, and what the answer is.

use mm_io::{MemFiles, MemSink, MemSource};
use mm_load::Status;
use mm_top::mmachine;
use mm_vmem::VMem;
use std::test::Fail;

const HELLO: &[u8] =
    b"cycles 3\ngroup 0 output 1\no 41\nslot 0 turns 3 halted ip p3300000000100010\nr 1 i0000000000000041\n\
      counts hits 2 misses 1 writebacks 0 tlb_hits 0 tlb_misses 1 reads 1 writes 0\n";

// Two turns of slot 0, and one of a slot that is not there.
const UNDER_A_SCHEDULE: &[u8] =
    b"cycles 3\ngroup 0 output 1\no 41\nslot 0 turns 2 running ip p3300000000100010\nr 1 i0000000000000041\n\
      counts hits 1 misses 1 writebacks 0 tlb_hits 0 tlb_misses 1 reads 1 writes 0\n";

// The report of a third cycle, after a checkpoint of two. The line of counts is of that cycle alone.
const CONTINUED: &[u8] =
    b"cycles 3\ngroup 0 output 1\no 41\nslot 0 turns 3 halted ip p3300000000100010\nr 1 i0000000000000041\n\
      counts hits 0 misses 1 writebacks 0 tlb_hits 0 tlb_misses 1 reads 1 writes 0\n";

// Two cycles of round robin, each with its line.
const TWO_CYCLES: &[u8] =
    b"t 0 1 did fetch 00000000100000\nt 0 2 did fetch 00000000100008\ncycles 2\ngroup 0 output 1\no 41\n\
      slot 0 turns 2 running ip p3300000000100010\nr 1 i0000000000000041\n\
      counts hits 1 misses 1 writebacks 0 tlb_hits 0 tlb_misses 1 reads 1 writes 0\n";

// The same two cycles, and what each of them changed.
const LOG_OF_TWO: &[u8] =
    b"t 0 1 did fetch 00000000100000\nip 0 p3300000000100008\nr 0 1 i0000000000000041\n\
      t 0 2 did fetch 00000000100008\nip 0 p3300000000100010\nout 0 41\ncycles 2\ngroup 0 output 1\no 41\n\
      slot 0 turns 2 running ip p3300000000100010\nr 1 i0000000000000041\n\
      counts hits 1 misses 1 writebacks 0 tlb_hits 0 tlb_misses 1 reads 1 writes 0\n";

// The turns of the two slots of `pair`.
const TURNS: &str = "0*3 1 0 1*2";

const TRACE_OF_TWO: &[u8] =
    b"t 0 1 did fetch 00000000100000\nt 0 2 did fetch 00000000100008\nt 0 3 did fetch 00000000100000\n\
      t 1 1 did fetch 00000000100000\nt 0 4 did fetch 00000000100008\nt 1 2 did fetch 00000000100008\n\
      t 1 3 did fetch 00000000100000\ncycles 7\ngroup 0 output 2\no 4141\n\
      slot 0 turns 4 running ip p3300000000100000\nr 1 i0000000000000041\ngroup 1 output 2\no 4242\n\
      slot 1 turns 3 running ip p3300000000100008\nr 1 i0000000000000042\n\
      counts hits 6 misses 1 writebacks 0 tlb_hits 0 tlb_misses 1 reads 1 writes 0\n";

const ALONE_0: &[u8] =
    b"cycles 4\ngroup 0 output 2\no 4141\nslot 0 turns 4 running ip p3300000000100000\nr 1 i0000000000000041\n\
      counts hits 3 misses 1 writebacks 0 tlb_hits 0 tlb_misses 1 reads 1 writes 0\n";

// A source of two lines, and its object.
const SOURCE: &[u8] = b".segment a 3\nhalt\n";

const HALT: &[u8] = b"MMO1\x00\x01\x00\x01\x00\x00\x00\x00\x00\x00\x00\x00\
      \x01a\x03\x00\x00\x00\x01\x01\x00\x00\x00\x00\x00\x00\x00\x00";

// The canonical text of that object.
const HALT_AGAIN: &[u8] = b".spare 0\n.segment a 3\nhalt\n";

// The holders of pointers into the page of the code of `pair`.
const HOLDERS: &[u8] = b"ip 0 p3300000000100000\nip 1 p3300000000100000\n";

// The least generated image after three cycles.
const SOAKED: &[u8] = b"cycles 3\nslot 0 turns 3 running out 1 xor i14057b7ef767814f\n";

// A word of `HELLO` is taken by a link, which finds no empty word in `PAIR`.
const LINK: &[u8] = b"0.1048640>1.1048648";

const EVENTS: &[u8] = b"0:0*2 +0 0@0 1:0 1:1";

const HELLO_AND_PAIR: &[u8] =
    b"node 0\ncycles 2\ngroup 0 output 1\no 41\nslot 0 turns 2 running ip p3300000000100010\n\
      r 1 i0000000000000041\ncell 00000000100040 i0000000000000000 empty\n\
      counts hits 1 misses 2 writebacks 0 tlb_hits 1 tlb_misses 1 reads 2 writes 0\nnode 1\ncycles 2\n\
      group 0 output 1\no 41\nslot 0 turns 1 running ip p3300000000100008\nr 1 i0000000000000041\n\
      group 1 output 1\no 42\nslot 1 turns 1 running ip p3300000000100008\nr 1 i0000000000000042\n\
      counts hits 1 misses 2 writebacks 0 tlb_hits 1 tlb_misses 1 reads 2 writes 0\nlink 0 sent 1 arrived 0\n";

/// The image of `examples/hello.img`.
fn hello(rt: &HostRuntime) -> Result<Vec<u8>, Fail> {
    hello_as(rt, 1, 0)
}

/// The image of `examples/hello.img`, but of this version and this mode.
fn hello_as(rt: &HostRuntime, version: u8, mode: u8) -> Result<Vec<u8>, Fail> {
    let mut bytes = Vec::from_slice(rt.alloc(), b"MMI1\x00")?;
    bytes.extend_from_slice(&[version, 0, 1, 0, 1, 0, 1, 0, 0, 0, mode])?;
    // Slot 0 of group 0, with no handler, running.
    bytes.extend_from_slice(b"\x00\x00\xff\x00")?;
    bytes.extend_from_slice(&0x3300_0000_0010_0000_u64.to_be_bytes())?;
    bytes.extend_from_slice(&[0; 130])?;
    // Page 0x100: each cell full, then the cells.
    bytes.extend_from_slice(&0x100_u64.to_be_bytes())?;
    bytes.extend_from_slice(&[0; 64])?;
    bytes.extend_from_slice(&[0xff; 64])?;
    bytes.extend_from_slice(&0x0210_0000_0000_0041_u64.to_be_bytes())?;
    bytes.extend_from_slice(&0x0701_0000_0000_0000_u64.to_be_bytes())?;
    bytes.extend_from_slice(&[0; 4080])?;
    Ok(bytes)
}

/// Two slots of two groups, which put out a byte of their own again and again. The first has this handler.
fn pair(rt: &HostRuntime, handler: u8) -> Result<Vec<u8>, Fail> {
    putting(rt, &[(0, handler, 0x41), (1, 0xff, 0x42)])
}

/// Slots of these numbers and handlers, which put out these bytes again and again. Each has a group of its own, of its
/// number.
fn putting(rt: &HostRuntime, slots: &[(u8, u8, u8)]) -> Result<Vec<u8>, Fail> {
    let mut bytes = Vec::from_slice(rt.alloc(), b"MMI1\x00\x01")?;
    bytes.extend_from_slice(&(slots.len() as u64).to_be_bytes()[6..])?;
    bytes.extend_from_slice(b"\x00\x01\x00\x01\x00\x00\x00\x00")?;
    for &(number, handler, byte) in slots {
        bytes.extend_from_slice(&[number, number, handler, 0])?;
        bytes.extend_from_slice(&0x3300_0000_0010_0000_u64.to_be_bytes())?;
        bytes.extend_from_slice(&[0; 17])?;
        bytes.push(byte)?;
        bytes.extend_from_slice(&[0; 112])?;
    }
    bytes.extend_from_slice(&0x100_u64.to_be_bytes())?;
    bytes.extend_from_slice(&[0; 64])?;
    bytes.extend_from_slice(&[0xff; 64])?;
    bytes.extend_from_slice(&0x0701_0000_0000_0000_u64.to_be_bytes())?;
    bytes.extend_from_slice(&0x4000_0000_ffff_ffff_u64.to_be_bytes())?;
    bytes.extend_from_slice(&[0; 4080])?;
    Ok(bytes)
}

/// The object of `examples/hello.asm`.
fn hello_object(rt: &HostRuntime) -> Result<Vec<u8>, Fail> {
    let mut bytes = Vec::from_slice(
        rt.alloc(),
        b"MMO1\x00\x01\x00\x01\x00\x00\x00\x00\x00\x01\x00\x00",
    )?;
    // The segment of 2^12 bytes: three full words.
    bytes.extend_from_slice(b"\x05hello\x0c\x00\x00\x00\x03\x07")?;
    bytes.extend_from_slice(&0x0210_0000_0000_0041_u64.to_be_bytes())?;
    bytes.extend_from_slice(&0x0701_0000_0000_0000_u64.to_be_bytes())?;
    bytes.extend_from_slice(&[0; 8])?;
    // Slot 0 of group 0, with no handler: it executes as a user from the start of the segment.
    bytes.extend_from_slice(b"\x00\x00\xff\x03")?;
    bytes.extend_from_slice(&[0; 136])?;
    Ok(bytes)
}

/// The checkpoint of `hello` after its first two cycles: slot 0 put out a byte, and its code has not changed.
fn saved(rt: &HostRuntime) -> Result<Vec<u8>, Fail> {
    let mut bytes = Vec::from_slice(rt.alloc(), b"MMS1\x00\x01")?;
    // Two cycles, the last of slot 0, and one page.
    bytes.extend_from_slice(b"\x00\x00\x00\x00\x00\x00\x00\x00\x00\x02\x00\x01")?;
    // Slot 0, which runs, after two turns.
    bytes.extend_from_slice(b"\x00\x00\x00\x00\x00\x00\x00\x00\x00\x00\x00\x02")?;
    bytes.extend_from_slice(&0x3300_0000_0010_0010_u64.to_be_bytes())?;
    bytes.extend_from_slice(&[0; 12])?;
    bytes.extend_from_slice(&0x41_u64.to_be_bytes())?;
    bytes.extend_from_slice(&[0; 131])?;
    // The byte that group 0 put out.
    bytes.extend_from_slice(b"\x00\x00\x00\x01\x41")?;
    // Page 0x100, as in the image.
    bytes.extend_from_slice(&0x100_u64.to_be_bytes())?;
    bytes.extend_from_slice(&[0; 64])?;
    bytes.extend_from_slice(&[0xff; 64])?;
    bytes.extend_from_slice(&0x0210_0000_0000_0041_u64.to_be_bytes())?;
    bytes.extend_from_slice(&0x0701_0000_0000_0000_u64.to_be_bytes())?;
    bytes.extend_from_slice(&[0; 4080])?;
    Ok(bytes)
}

/// The generated image of number 0 with one slot.
fn generated(rt: &HostRuntime) -> Result<Vec<u8>, Fail> {
    let mut bytes = Vec::from_slice(
        rt.alloc(),
        b"MMI1\x00\x01\x00\x01\x00\x02\x00\x02\x00\x00\x00\x00",
    )?;
    // Slot 0 of group 0, with no handler, running, and register 1 a pointer to page 0x101.
    bytes.extend_from_slice(b"\x00\x00\xff\x00")?;
    bytes.extend_from_slice(&0x3300_0000_0010_0000_u64.to_be_bytes())?;
    bytes.extend_from_slice(&[0, 2, 0, 0, 0, 0, 0, 0, 0, 0])?;
    bytes.extend_from_slice(&0x2300_0000_0010_1000_u64.to_be_bytes())?;
    bytes.extend_from_slice(&[0; 112])?;
    // Page 0x100: the loop that goes over the data.
    bytes.extend_from_slice(&0x100_u64.to_be_bytes())?;
    bytes.extend_from_slice(&[0; 64])?;
    bytes.extend_from_slice(&[0xff; 64])?;
    for word in [
        0x3021_0000_0000_0000_u64,
        0x1733_2000_0000_0000,
        0x0703_0000_0000_0000,
        0x2111_0000_0000_0008,
        0x4000_0000_ffff_fffc,
    ] {
        bytes.extend_from_slice(&word.to_be_bytes())?;
    }
    bytes.extend_from_slice(&[0; 4056])?;
    // Page 0x101: the numbers after 0.
    bytes.extend_from_slice(&0x101_u64.to_be_bytes())?;
    bytes.extend_from_slice(&[0; 64])?;
    bytes.extend_from_slice(&[0xff; 64])?;
    let mut number = 0_u64;
    for _ in 0..512 {
        number = number
            .wrapping_mul(0x5851_f42d_4c95_7f2d)
            .wrapping_add(0x1405_7b7e_f767_814f);
        bytes.extend_from_slice(&number.to_be_bytes())?;
    }
    Ok(bytes)
}

/// The words as strings.
fn strings(rt: &HostRuntime, words: &[&str]) -> Result<Vec<String>, Fail> {
    let mut strings = Vec::new(rt.alloc());
    for word in words {
        strings.push(String::from_str(rt.alloc(), word)?)?;
    }
    Ok(strings)
}

/// The files that the tables of commands name, which move `piece` bytes in a call. The call with the number `fails`
/// fails.
fn shelf(rt: &HostRuntime, fails: u64, piece: usize) -> Result<MemFiles, Fail> {
    let mut held = Vec::new(rt.alloc());
    held.push((String::from_str(rt.alloc(), "HELLO")?, hello(rt)?))?;
    held.push((String::from_str(rt.alloc(), "PAIR")?, pair(rt, 0xff)?))?;
    held.push((
        String::from_str(rt.alloc(), "HELLO_OBJECT")?,
        hello_object(rt)?,
    ))?;
    held.push((String::from_str(rt.alloc(), "CHECKPOINT")?, saved(rt)?))?;
    for (name, bytes) in [
        ("SCHEDULE", b"0*2 5".as_slice()),
        ("TURNS", TURNS.as_bytes()),
        ("SOURCE", SOURCE),
        ("OBJECT", HALT),
        ("LINKS", LINK),
        ("EVENTS", EVENTS),
    ] {
        let bytes = Vec::from_slice(rt.alloc(), bytes)?;
        held.push((String::from_str(rt.alloc(), name)?, bytes))?;
    }
    let fails = vec![in rt.alloc(); fails]?;
    Ok(MemFiles::new(held, fails, piece.max(1)))
}

// What the audit writes of both groups.
const REACH: &[u8] =
    b"group 0 user\ntouch 00000000100000 12\napart 0 yes\ngroup 1 user\ntouch 00000000100000 12\napart 1 yes\n";

// What the first two configurations of `pair` show.
const FIRST_TWO_EXPLORED: &[u8] =
    b"explored 2 more\ngroup 0\ntouched 00000000100000 2\ngroup 1\ntouched 00000000100000 1\n";

// The pointer by which group 0 reaches its code.
const REASON: &[u8] = b"1 group 0 p3300000000100000 ip 0\n";

const LINES: &[u8] = b"step 1\nregs 0\nmem 0x100000 1\njump\nquit\n";

const REPLIES: &[u8] =
    b"stepped 1 total 1\nslot 0 turns 1 running ip p3300000000100008\nr 1 i0000000000000041\n\
      cell 00000000100000 i0210000000000041 full\nbad command\nbye\n";

/// A source of `LINES` that gives at most ten bytes in a read. The read with the number `fails` fails.
fn lines(rt: &HostRuntime, fails: u64) -> Result<MemSource, Fail> {
    let fails = vec![in rt.alloc(); fails]?;
    Ok(MemSource::new(Vec::from_slice(rt.alloc(), LINES)?, fails, 10))
}

/// The answer to the words, with what the sinks took, if the calls of these numbers fail: of the files, of standard
/// input, of `out` and of `diag`. None fails for a number 0.
fn attempt(
    rt: &HostRuntime,
    words: &[&str],
    fails: [u64; 4],
) -> Result<(Status, MemSink, MemSink), Fail> {
    let [read, draw, write, line] = fails;
    let mut out = MemSink::new(rt.alloc(), 10_000, vec![in rt.alloc(); write]?, 16)?;
    let mut diag = MemSink::new(rt.alloc(), 100, vec![in rt.alloc(); line]?, 7)?;
    let status = mmachine::<VMem, _, _, _, _>(
        rt.alloc(),
        &strings(rt, words)?,
        &mut shelf(rt, read, 1024)?,
        &mut lines(rt, draw)?,
        &mut out,
        &mut diag,
    );
    Ok((status, out, diag))
}

/// Whether nothing but the line is written if a read fails.
fn stops_at_read(rt: &HostRuntime, words: &[&str], fails: [u64; 4]) -> Result<bool, Fail> {
    let (status, out, diag) = attempt(rt, words, fails)?;
    Ok(
        matches!(status, Status::ReadFault)
            && out.taken().is_empty()
            && diag.taken() == b"mmachine: read fault\n".as_slice(),
    )
}

/// Whether `out` has a prefix of the text, of whole pieces, if the write after `before` others fails.
fn stops_at_write(
    rt: &HostRuntime,
    words: &[&str],
    before: u16,
    text: &[u8],
) -> Result<bool, Fail> {
    let (status, out, diag) = attempt(rt, words, [0, 0, before as u64 + 1, 0])?;
    Ok(
        matches!(status, Status::WriteFault)
            && text.starts_with(out.taken())
            && out.taken().len().div_ceil(16) == before as usize
            && diag.taken() == b"mmachine: write fault\n".as_slice(),
    )
}

/// Whether the whole text is written if no call fails.
fn ends(rt: &HostRuntime, words: &[&str], fails: [u64; 4], text: &[u8]) -> Result<bool, Fail> {
    let (status, out, diag) = attempt(rt, words, fails)?;
    Ok(matches!(status, Status::Done) && out.taken() == text && diag.taken().is_empty())
}

/// Whether the outputs are as they have to be whichever call fails, of the numbers of reads of files, of reads of
/// standard input and of writes that `calls` has. A failing call that the words do not make changes nothing.
fn fails_in_turn(
    rt: &HostRuntime,
    words: &[&str],
    calls: [u16; 3],
    text: &[u8],
) -> Result<bool, Fail> {
    let [reads, draws, writes] = calls;
    let after = [reads as u64 + 1, draws as u64 + 1, writes as u64 + 1, 1];
    let mut holds = ends(rt, words, after, text)?;
    for read in 1..=reads {
        holds &= stops_at_read(rt, words, [read as u64, 0, 0, 0])?;
    }
    for draw in 1..=draws {
        holds &= stops_at_read(rt, words, [0, draw as u64, 0, 0])?;
    }
    for before in 0..writes {
        holds &= stops_at_write(rt, words, before, text)?;
    }
    Ok(holds)
}

// Each command that writes a text, and `asm`.
#[test]
fn each_call_fails(rt: HostRuntime) -> Result<(), Fail> {
    let rows: [(&[&str], [u16; 3], &[u8]); 16] = [
        (&["run", "HELLO", "10"], [6, 0, 11], HELLO),
        (
            &["run", "HELLO", "10", "SCHEDULE"],
            [8, 0, 11],
            UNDER_A_SCHEDULE,
        ),
        (&["trace", "HELLO", "2"], [6, 0, 15], TWO_CYCLES),
        (&["trace", "PAIR", "100", "TURNS"], [8, 0, 31], TRACE_OF_TWO),
        (&["log", "HELLO", "2"], [6, 0, 20], LOG_OF_TWO),
        (&["solo", "PAIR", "0", "100", "TURNS"], [8, 0, 11], ALONE_0),
        (
            &["continue", "HELLO", "CHECKPOINT", "1"],
            [12, 0, 11],
            CONTINUED,
        ),
        (&["explore", "PAIR", "2"], [6, 0, 6], FIRST_TWO_EXPLORED),
        (&["why", "PAIR", "0", "1048576", "touch"], [6, 0, 3], REASON),
        (&["grants", "PAIR"], [6, 0, 7], REACH),
        (&["asm", "SOURCE"], [2, 0, 2], HALT),
        (&["dis", "OBJECT"], [2, 0, 2], HALT_AGAIN),
        (&["debug", "HELLO"], [6, 5, 9], REPLIES),
        (&["debug", "HELLO", "SCHEDULE"], [8, 5, 9], REPLIES),
        (&["soak", "0", "1", "3"], [0, 0, 4], SOAKED),
        (&["holders", "PAIR", "1048576", "12"], [6, 0, 3], HOLDERS),
    ];
    for (words, calls, text) in rows {
        assert!(rt; fails_in_turn(&rt, words, calls, text)?, "{words:?}");
    }
    Ok(())
}

// A net, whose parts are written one after the other: each write takes more of the text.
#[test]
fn each_call_of_a_net_fails(rt: HostRuntime) -> Result<(), Fail> {
    let words = ["net", "LINKS", "EVENTS", "100", "HELLO", "PAIR"];
    assert!(rt; ends(&rt, &words, [17, 1, 36, 1], HELLO_AND_PAIR)?);
    for read in 1..=16 {
        assert!(rt; stops_at_read(&rt, &words, [read, 0, 0, 0])?);
    }
    let mut taken = 0;
    for write in 1..=35 {
        let (status, out, _) = attempt(&rt, &words, [0, 0, write, 0])?;
        assert!(rt; matches!(status, Status::WriteFault));
        assert!(rt; HELLO_AND_PAIR.starts_with(out.taken()));
        assert!(rt; write == 1 || out.taken().len() > taken);
        taken = out.taken().len();
    }
    Ok(())
}

// Each command that writes an image or a checkpoint.
#[test]
fn each_write_of_a_file_fails(rt: HostRuntime) -> Result<(), Fail> {
    let alone = putting(&rt, &[(0, 0xff, 0x41)])?;
    assert!(rt; fails_in_turn(&rt, &["extract", "PAIR", "0"], [6, 0, 275], &alone)?);
    assert!(rt; fails_in_turn(&rt, &["link", "HELLO_OBJECT"], [2, 0, 275], &hello(&rt)?)?);
    assert!(rt; fails_in_turn(&rt, &["gen", "0", "1"], [0, 0, 539], &generated(&rt)?)?);
    let split = hello_as(&rt, 2, 1)?;
    assert!(rt; fails_in_turn(&rt, &["migrate", "HELLO", "split"], [6, 0, 275], &split)?);
    assert!(rt; fails_in_turn(&rt, &["save", "HELLO", "2"], [6, 0, 277], &saved(&rt)?)?);
    // Nobody holds a pointer into this range.
    assert!(rt;
        fails_in_turn(
            &rt,
            &["sweep", "HELLO", "0", "12"],
            [6, 0, 275],
            &hello(&rt)?
        )?
    );
    Ok(())
}
