//! A test of sessions that go back.

use arrayvec::ArrayVec;
use mm_debug::Session;
use mm_image::Image;
use mm_io::MemSink;
use mm_machine::{Machine, Slot, SlotState};
use mm_mem::{Boot, PlainMem};
use mm_model::{CELLS, Page};
use mm_save::Recorder;
use mm_sched::Order;
use mm_word::{Cell, GuardedPtr, Perm, Word};
use std::alloc::Global;
use std::test::Fail;

/// A slot that runs at the start of the page.
fn running() -> Option<Slot> {
    Some(Slot {
        number: 0,
        group: 0,
        handler: None,
        regs: [Word::Int(0); 16],
        ip: GuardedPtr::new(Perm::Xu, 12, 0x10_0000)?,
        past: false,
        turns: 0,
        state: SlotState::Running,
        empty: 0,
        pending: ArrayVec::new(),
    })
}

/// A branch to itself.
const LOOP: u64 = 0x4000_0000_0000_0000;

/// A recorder at the start of a slot that always runs.
fn recorder(alloc: Global) -> Result<Recorder<PlainMem>, Fail> {
    let mut slots = Vec::new(alloc);
    slots.push(running().ok_or("a slot")?)?;
    let mut cells = Vec::with_capacity(alloc, CELLS)?;
    for _place in 0..CELLS {
        cells.push(Cell {
            word: Word::Int(LOOP),
            full: true,
        })?;
    }
    let mut pages = Vec::new(alloc);
    pages.push(Page::new(0x100, cells).ok_or("a page")?)?;
    let image = Image::new(1, false, slots, pages, 1).ok_or("an image")?;
    let Ok(mem) = PlainMem::new(alloc, image.pages(), image.frames()) else {
        return Err(Fail::from("memory"));
    };
    let Ok(machine) = Machine::new(alloc, &image, mem) else {
        return Err(Fail::from("memory"));
    };
    let Ok(recorder) = Recorder::new(alloc, Session::new(machine, Order::Robin)) else {
        return Err(Fail::from("memory"));
    };
    Ok(recorder)
}

const WENT_BACK: &[u8] =
    b"stepped 1500 total 1500\nstepped 1500 total 3000\nback 1 total 2999\nbad command\nbad command\n\
      back 2999 total 0\nbye\n";

#[test]
fn back_to_kept_states(rt: HostRuntime) -> Result<(), Fail> {
    let mut recorder = recorder(rt.alloc())?;
    let mut out = MemSink::new(rt.alloc(), 200, Vec::new(rt.alloc()), 7)?;
    for line in ["step 1500", "step 1500", "back 1"] {
        recorder.line(line.as_bytes(), &mut out)?;
    }
    assert_eq!(rt;
        (recorder.kept(0), recorder.kept(1), recorder.kept(2)),
        (Some(1500), Some(3000), None)
    );
    recorder.lines(
        b"back 0\nback 1000001\nback 1000000\nquit\nback 1\n",
        &mut out,
    )?;
    assert_eq!(rt; out.taken(), WENT_BACK);
    assert_eq!(rt; recorder.session().total(), 0);
    Ok(())
}
