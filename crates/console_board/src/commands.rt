// Which function a command on the board is.
ghost use Rattle.std.specs.Prelude.{◌≤◌, ◌/◌, ◌≡◌, length};
ghost use Rattle.console_text.specs.Text.{page};
ghost use Rattle.console_chip.specs.Answers.{said, saying};
ghost use Rattle.console_arrays.specs.Services.{served, serving};
ghost use Rattle.console_board.specs.Commands.{board_reply, board_service_reply};

use crate::control::{
    fresh_of, grant, make_fresh, pins, read, reset, set_state, state, waits, write,
};
use crate::runs::{go_round, run};
use crate::sheets::{load, sheet};
use board::Board;
use console_arrays::runs::Served;
use console_chip::answers::Spoken;
use console_text::forms::{BoardCommand, BoardServiceCommand};

#[tactic(auto, using(std::proofs::lemmas::Bool::Decides::nat_tests), unfolding(crate::specs::Commands::board_reply, words::specs::Choice::when))]
pub fn board_said(
    b: Board,
    command: BoardCommand,
    one: &[u8],
    two: &[u8],
    three: &[u8],
    spare: &mut [u8],
    out: &mut [u8],
    at: usize,
) -> Spoken<Board>
    requires { (70000 ≤ length spare.old) × (length three.now / 2 ≤ length spare.old) }
    ensures { said result out.new ≡ saying (page out.old at) (board_reply command b one.now two.now three.now) }
{
    match command {
        BoardCommand::State => state(b, out, at),
        BoardCommand::SetState => set_state(b, one, out, at),
        BoardCommand::Fresh => make_fresh(out, at),
        BoardCommand::FreshOf => fresh_of(b, one, two, out, at),
        BoardCommand::Write => write(b, one, two, out, at),
        BoardCommand::Read => read(b, one, out, at),
        BoardCommand::Pins => pins(b, one, out, at),
        BoardCommand::Reset => reset(b, out, at),
        BoardCommand::Waits => waits(b, one, two, out, at),
        BoardCommand::Grant => grant(b, out, at),
        BoardCommand::Sheet => sheet(b, one, two, three, spare, out, at),
        BoardCommand::Load => load(b, one, two, three, spare, out, at),
    }
}

// With memory, device bytes and room lent.
#[tactic(auto, unfolding(crate::specs::Commands::board_service_reply))]
pub fn serve_board(
    b: Board,
    command: BoardServiceCommand,
    memory: &mut [u8],
    device: &[u8],
    room: &mut [u8],
    one: &[u8],
    two: &[u8],
    out: &mut [u8],
    at: usize,
) -> Served<Board>
    ensures { served result memory.new room.new out.new ≡ serving (page out.old at) (board_service_reply command b memory.old device.now room.old one.now two.now) }
{
    match command {
        BoardServiceCommand::Run => run(b, memory, device, room, one, two, out, at),
        BoardServiceCommand::Round => go_round(b, memory, device, room, one, out, at),
    }
}
