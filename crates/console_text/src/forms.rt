// Which command a line is: its name, and how many further words it has.
ghost use Rattle.std.specs.Prelude.{◌≡◌};
ghost use Rattle.words.specs.Choice.{when};
ghost use Rattle.console_text.specs.Commands.{is_form, pick, controller_rows, array_rows, service_rows, sheet_rows, board_rows, people_rows, command_of};

use self::Command::{Arrays, Board, BoardServices, Chip, People, Services};
use crate::line::same;

// A command, by what it is given: the controller, the arrays, all of them, the board, that and the arrays, or nothing; a line of no
// words; anything else.
#[derive(Clone, Copy)]
pub enum Command {
    Nothing,
    Chip(ChipCommand),
    Arrays(ArrayCommand),
    Services(ServiceCommand),
    Board(BoardCommand),
    BoardServices(BoardServiceCommand),
    People(PeopleCommand),
    Unknown,
}

// On the controller.
#[derive(Clone, Copy)]
pub enum ChipCommand {
    State,
    SetState,
    Full,
    SetFull,
    Fresh,
    FreshOf,
    Write,
    Read,
    Pins,
    Reset,
    Waits,
    Grant,
    Sheet,
    Load,
    Sheet2,
    Load2,
    Forward,
    Back,
}

// On the memory, the queue and the room.
#[derive(Clone, Copy)]
pub enum ArrayCommand {
    Memory,
    Poke,
    Peek,
    Feed,
    Fill,
    Room,
    Out,
    Dump,
    Queue,
    Empty,
}

// On the controller with all of them lent.
#[derive(Clone, Copy)]
pub enum ServiceCommand {
    Run,
    Round,
    Judge,
}

// On the board.
#[derive(Clone, Copy)]
pub enum BoardCommand {
    State,
    SetState,
    Fresh,
    FreshOf,
    Write,
    Read,
    Pins,
    Reset,
    Waits,
    Grant,
    Sheet,
    Load,
}

// On the board with the arrays lent.
#[derive(Clone, Copy)]
pub enum BoardServiceCommand {
    Run,
    Round,
}

// For people.
#[derive(Clone, Copy)]
pub enum PeopleCommand {
    Show,
    BoardShow,
    Help,
    HelpOn,
}

// The name of a line, and how many words stand behind it.
#[derive(Clone, Copy)]
struct Form<'a> {
    name: &'a [u8],
    words: usize,
}

impl Form<'_> {
    // The command where the line is of its row, else the other one.
    #[tactic(auto, using(crate::proofs::CommandLaws::form_hit, crate::proofs::CommandLaws::form_other_name, crate::proofs::CommandLaws::form_other_words), unfolding(words::specs::Choice::when))]
    fn row(self, word: &[u8], k: usize, command: Command, other: Command) -> Command
        ensures { result ≡ when (is_form self.entry.name.now self.entry.words word.now k) command other }
    {
        if self.words == k && same(self.name, word) {
            command
        } else {
            other
        }
    }
}

fn controller_row(form: Form, other: Command) -> Command
    ensures { result ≡ pick controller_rows form.entry.name.now form.entry.words other }
{
    let no = form.row(b"grant", 0, Chip(ChipCommand::Grant), other);
    let no = form.row(b"waits", 1, Chip(ChipCommand::Waits), no);
    let no = form.row(b"reset", 0, Chip(ChipCommand::Reset), no);
    let no = form.row(b"pins", 1, Chip(ChipCommand::Pins), no);
    let no = form.row(b"read", 1, Chip(ChipCommand::Read), no);
    let no = form.row(b"write", 2, Chip(ChipCommand::Write), no);
    let no = form.row(b"fresh", 1, Chip(ChipCommand::FreshOf), no);
    let no = form.row(b"fresh", 0, Chip(ChipCommand::Fresh), no);
    let no = form.row(b"full", 1, Chip(ChipCommand::SetFull), no);
    let no = form.row(b"full", 0, Chip(ChipCommand::Full), no);
    let no = form.row(b"state", 1, Chip(ChipCommand::SetState), no);
    form.row(b"state", 0, Chip(ChipCommand::State), no)
}

fn array_row(form: Form, other: Command) -> Command
    ensures { result ≡ pick array_rows form.entry.name.now form.entry.words other }
{
    let no = form.row(b"out", 2, Arrays(ArrayCommand::Out), other);
    let no = form.row(b"room", 2, Arrays(ArrayCommand::Room), no);
    let no = form.row(b"fill", 2, Arrays(ArrayCommand::Fill), no);
    let no = form.row(b"feed", 1, Arrays(ArrayCommand::Feed), no);
    let no = form.row(b"peek", 2, Arrays(ArrayCommand::Peek), no);
    let no = form.row(b"poke", 2, Arrays(ArrayCommand::Poke), no);
    form.row(b"memory", 1, Arrays(ArrayCommand::Memory), no)
}

fn service_row(form: Form, other: Command) -> Command
    ensures { result ≡ pick service_rows form.entry.name.now form.entry.words other }
{
    let no = form.row(b"judge", 1, Services(ServiceCommand::Judge), other);
    let no = form.row(b"round", 1, Services(ServiceCommand::Round), no);
    form.row(b"run", 2, Services(ServiceCommand::Run), no)
}

fn sheet_row(form: Form, other: Command) -> Command
    ensures { result ≡ pick sheet_rows form.entry.name.now form.entry.words other }
{
    let no = form.row(b"back", 2, Chip(ChipCommand::Back), other);
    let no = form.row(b"forward", 2, Chip(ChipCommand::Forward), no);
    let no = form.row(b"load2", 1, Chip(ChipCommand::Load2), no);
    let no = form.row(b"sheet2", 1, Chip(ChipCommand::Sheet2), no);
    let no = form.row(b"load", 1, Chip(ChipCommand::Load), no);
    form.row(b"sheet", 1, Chip(ChipCommand::Sheet), no)
}

fn board_row(form: Form, other: Command) -> Command
    ensures { result ≡ pick board_rows form.entry.name.now form.entry.words other }
{
    let no = form.row(b"b.show", 0, People(PeopleCommand::BoardShow), other);
    let no = form.row(b"b.round", 1, BoardServices(BoardServiceCommand::Round), no);
    let no = form.row(b"b.run", 2, BoardServices(BoardServiceCommand::Run), no);
    let no = form.row(b"b.load", 3, Board(BoardCommand::Load), no);
    let no = form.row(b"b.sheet", 3, Board(BoardCommand::Sheet), no);
    let no = form.row(b"b.grant", 0, Board(BoardCommand::Grant), no);
    let no = form.row(b"b.waits", 2, Board(BoardCommand::Waits), no);
    let no = form.row(b"b.reset", 0, Board(BoardCommand::Reset), no);
    let no = form.row(b"b.pins", 1, Board(BoardCommand::Pins), no);
    let no = form.row(b"b.read", 1, Board(BoardCommand::Read), no);
    let no = form.row(b"b.write", 2, Board(BoardCommand::Write), no);
    let no = form.row(b"b.fresh", 2, Board(BoardCommand::FreshOf), no);
    let no = form.row(b"b.fresh", 0, Board(BoardCommand::Fresh), no);
    let no = form.row(b"b.state", 1, Board(BoardCommand::SetState), no);
    form.row(b"b.state", 0, Board(BoardCommand::State), no)
}

fn people_row(form: Form, other: Command) -> Command
    ensures { result ≡ pick people_rows form.entry.name.now form.entry.words other }
{
    let no = form.row(b"empty", 0, Arrays(ArrayCommand::Empty), other);
    let no = form.row(b"queue", 0, Arrays(ArrayCommand::Queue), no);
    let no = form.row(b"dump", 2, Arrays(ArrayCommand::Dump), no);
    let no = form.row(b"help", 1, People(PeopleCommand::HelpOn), no);
    let no = form.row(b"help", 0, People(PeopleCommand::Help), no);
    form.row(b"show", 0, People(PeopleCommand::Show), no)
}

#[tactic(auto, unfolding(crate::specs::Commands::command_of, words::specs::Choice::when))]
pub fn command_of(name: &[u8], n: usize) -> Command
    ensures { result ≡ command_of name.now n }
{
    if name.is_empty() {
        return Command::Nothing;
    }
    let form = Form { name, words: n };
    let no = people_row(form, Command::Unknown);
    let no = board_row(form, no);
    let no = sheet_row(form, no);
    let no = service_row(form, no);
    let no = array_row(form, no);
    controller_row(form, no)
}
