// What the bits of the command and of a mode byte mean.
ghost use Rattle.std.specs.Prelude.{◌≡◌};
ghost use Rattle.am9517.specs.Modes.{memory_to_memory_bit, address_hold, disabled, compressed, rotating, active_low, is_write, is_read, autoinitialize, decrement, is_demand, is_single, is_block, is_cascade, mode_refused};

use words::bits::is_set;

pub fn memory_to_memory_bit(command: u8) -> bool
    ensures { result ≡ memory_to_memory_bit command }
{
    is_set(command, 0)
}

pub fn address_hold(command: u8) -> bool
    ensures { result ≡ address_hold command }
{
    is_set(command, 1)
}

pub fn disabled(command: u8) -> bool
    ensures { result ≡ disabled command }
{
    is_set(command, 2)
}

pub fn compressed(command: u8) -> bool
    ensures { result ≡ compressed command }
{
    is_set(command, 3)
}

pub fn rotating(command: u8) -> bool
    ensures { result ≡ rotating command }
{
    is_set(command, 4)
}

pub fn active_low(command: u8) -> bool
    ensures { result ≡ active_low command }
{
    is_set(command, 6)
}

pub fn is_write(mode: u8) -> bool
    ensures { result ≡ is_write mode }
{
    mode / 4 % 4 == 1
}

pub fn is_read(mode: u8) -> bool
    ensures { result ≡ is_read mode }
{
    mode / 4 % 4 == 2
}

pub fn autoinitialize(mode: u8) -> bool
    ensures { result ≡ autoinitialize mode }
{
    is_set(mode, 4)
}

pub fn decrement(mode: u8) -> bool
    ensures { result ≡ decrement mode }
{
    is_set(mode, 5)
}

pub fn is_demand(mode: u8) -> bool
    ensures { result ≡ is_demand mode }
{
    mode / 64 == 0
}

pub fn is_single(mode: u8) -> bool
    ensures { result ≡ is_single mode }
{
    // A range is two instructions in the loop of a round, the bits are four.
    (64 <= mode) & (mode < 128)
}

pub fn is_block(mode: u8) -> bool
    ensures { result ≡ is_block mode }
{
    mode / 64 == 2
}

pub fn is_cascade(mode: u8) -> bool
    ensures { result ≡ is_cascade mode }
{
    mode / 64 == 3
}

pub(crate) fn mode_refused(mode: u8) -> bool
    ensures { result ≡ mode_refused mode }
{
    // Bit n is set where n * 4 is refused: one look tells it, with no branch.
    let refused: u64 = 0x888888888888;
    let n = (mode / 4) as usize;
    (refused >> n) % 2 == 1
}
