// The bytes of many transfers between the memory and the device.
ghost use Rattle.std.specs.Prelude.{◌≡◌, ◌++◌, ℕ, ◌+◌, ◌≤◌, length, take, drop};
ghost use Rattle.words.specs.Choice.{when};
ghost use Rattle.words.specs.Steps.{steps};
ghost use Rattle.words.specs.Spans.{spread};
ghost use Rattle.am9517.specs.Modes.{decrement};
ghost use Rattle.am9517_service.specs.Bounds.{most_transfers};
ghost use Rattle.am9517_service.specs.Transfer.{writes, reads};
ghost use Rattle.am9517_service.specs.ClosedLegs.{stored, loaded};
ghost use Rattle.am9517_service.specs.Needs.{Stocked};

use am9517::Channel;
use am9517::modes::{decrement, is_read, is_write};
use words::spans::{load, store};

// The bytes of n transfers of a write.
pub(crate) fn bring(mode: u8, address: u16, memory: &mut [u8], device: &[u8], n: usize)
    requires { (length memory.old ≡ 65536) × (n ≤ most_transfers) × (n ≤ length device.now) }
    ensures { memory.new ≡ spread (steps 16 (decrement mode) address) (λ (j : ℕ). j) device.now memory.old n }
{
    let at = address as usize;
    if n == 1 {
        memory[at] = device[0];
    } else {
        store(memory, decrement(mode), at, device, n);
    }
}

// The bytes of n transfers of a read.
pub(crate) fn fetch(mode: u8, address: u16, memory: &[u8], room: &mut [u8], n: usize)
    requires { (length memory.now ≡ 65536) × (n ≤ most_transfers) × (n ≤ length room.old) }
    ensures { room.new ≡ spread (λ (j : ℕ). j) (steps 16 (decrement mode) address) memory.now room.old n }
{
    let at = address as usize;
    if n == 1 {
        room[0] = memory[at];
    } else {
        load(memory, decrement(mode), at, room, n);
    }
}

// The bytes of n transfers.
pub(crate) fn move_bytes(ch: Channel, memory: &mut [u8], device: &[u8], room: &mut [u8], n: usize)
    requires { Stocked ch memory.old device.now room.old n }
    ensures memory_after { memory.new ≡ stored ch device.now memory.old n }
    ensures room { room.new ≡ loaded ch memory.old room.old n }
{
    if is_write(ch.mode) {
        bring(ch.mode, ch.address, memory, device, n);
    } else if is_read(ch.mode) {
        fetch(ch.mode, ch.address, memory, room, n);
    }
}

// The device bytes used and written so far.
#[derive(Clone, Copy)]
pub struct Moved {
    pub used: usize,
    pub written: usize,
}

// The same of a later service: lent the device bytes not yet used, and the room behind the last byte written.
#[tactic(auto, unfolding(crate::specs::ClosedLegs::address_after, words::specs::Choice::when))]
pub(crate) fn move_on(
    ch: Channel,
    memory: &mut [u8],
    device: &[u8],
    used: usize,
    room: &mut [u8],
    written: usize,
    n: usize,
) -> Moved
    requires { (used ≤ length device.now) × (written ≤ length room.old) × Stocked ch memory.old (drop used device.now) (drop written room.old) n }
    ensures value { result ≡ record { used = used + when (writes ch) n 0; written = written + when (reads ch) n 0 } }
    ensures memory { memory.new ≡ stored ch (drop used device.now) memory.old n }
    ensures room { room.new ≡ take written room.old ++ loaded ch memory.old (drop written room.old) n }
{
    // Asked for a read first, the loop of a round has fewer instructions.
    if is_read(ch.mode) {
        fetch(ch.mode, ch.address, memory, &mut room[written..], n);
        return Moved {
            used,
            written: written + n,
        };
    }
    if is_write(ch.mode) {
        bring(ch.mode, ch.address, memory, &device[used..], n);
        return Moved {
            used: used + n,
            written,
        };
    }
    Moved { used, written }
}
