// A register read: what it tells, and what it changes, with no variable index and without the board's own read: about twice as fast as over that.
ghost use Rattle.std.specs.Prelude.{◌≡◌, ◌<◌, ◌/◌, ◌%◌, eqb};
ghost use Rattle.words.specs.Choice.{when};
ghost use Rattle.am9517.specs.Fields.{channel};
ghost use Rattle.am9517.specs.Refusals.{refused, refusal};
ghost use Rattle.am9517.specs.Registers.{value, after_read};
ghost use Rattle.board.specs.Refusals.{board_read_grounds};
ghost use Rattle.board.specs.Answers.{board_read_of};
ghost use Rattle.c_board.specs.Host.{left, call_of, looked};

use crate::calls::Looked;
use am9517::{Controller, Refusal};
use board::Board;
use c_told::{Told, requesting_set, wide};
use words::bytes::byte_of;
use words::choice::when;

// The word that a register below 8 shows a byte of.
fn word(c: Controller, reg: u32) -> u16
    requires { reg < 8 }
    ensures { result ≡ when (eqb (reg % 2) 0) (channel c (reg / 2)).address (channel c (reg / 2)).count }
{
    match reg {
        0 => c.channels[0].address,
        1 => c.channels[0].count,
        2 => c.channels[1].address,
        3 => c.channels[1].count,
        4 => c.channels[2].address,
        5 => c.channels[2].count,
        6 => c.channels[3].address,
        _ => c.channels[3].count,
    }
}

// What a register that can be read gives.
fn value_of(c: Controller, reg: u32) -> u32
    ensures { result ≡ value c reg }
{
    if reg < 8 {
        return wide(byte_of(word(c, reg), c.flip_flop == 1));
    }
    if reg == 8 {
        return wide(c.tc) + 16 * wide(requesting_set(c));
    }
    wide(c.temporary)
}

// The flip-flop after it.
fn flip_flop_after(c: Controller, reg: u32) -> u8
    ensures { result ≡ (after_read c reg).flip_flop }
{
    if reg < 8 {
        return when(c.flip_flop == 1, 0, 1);
    }
    c.flip_flop
}

// The TC bits after it.
fn tc_after(c: Controller, reg: u32) -> u8
    ensures { result ≡ (after_read c reg).tc }
{
    when(reg == 8, 0, c.tc)
}

// The first ground that holds, nothing where none does.
fn read_refusal(b: Board, register: u32) -> Option<Refusal>
    ensures { result ≡ refused (refusal (board_read_grounds b register)) }
{
    let reg = register % 16;
    let unreadable = (9 <= reg) & (reg != 0xD);
    // In line: with a call of the board's own test a read took 1.3 times as long.
    let each = b.first.valid() & (b.second.valid() & (b.granted_last <= 1));
    if !each {
        return Some(Refusal::Range);
    }
    if (b.first.in_service != 0) & (b.second.in_service != 0) {
        return Some(Refusal::Range);
    }
    if 31 < register {
        return Some(Refusal::TooLarge);
    }
    if (b.first.in_service != 0) | (b.second.in_service != 0) {
        return Some(Refusal::InService);
    }
    when(unreadable, Some(Refusal::Register), None)
}

// All that a read changes, of both chips.
pub(crate) fn read(b: Board, register: u32) -> Looked
    ensures { left (looked b result.first_tc result.first_flip_flop result.second_tc result.second_flip_flop) result.said ≡ call_of (board_read_of b register) }
{
    if let Some(refusal) = read_refusal(b, register) {
        return Looked {
            first_tc: b.first.tc,
            first_flip_flop: b.first.flip_flop,
            second_tc: b.second.tc,
            second_flip_flop: b.second.flip_flop,
            said: Told {
                refusal: wide(refusal.number()),
                value: 0,
            },
        };
    }
    let reg = register % 16;
    if register < 16 {
        return Looked {
            first_tc: tc_after(b.first, reg),
            first_flip_flop: flip_flop_after(b.first, reg),
            second_tc: b.second.tc,
            second_flip_flop: b.second.flip_flop,
            said: Told {
                refusal: 0,
                value: value_of(b.first, reg),
            },
        };
    }
    Looked {
        first_tc: b.first.tc,
        first_flip_flop: b.first.flip_flop,
        second_tc: tc_after(b.second, reg),
        second_flip_flop: flip_flop_after(b.second, reg),
        said: Told {
            refusal: 0,
            value: value_of(b.second, reg),
        },
    }
}
