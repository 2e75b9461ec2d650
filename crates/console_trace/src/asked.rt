// What a line asks for: a run or a round, else nothing is traced.
use crate::Course;
use am9517::Controller;
use console_text::forms::{Command, ServiceCommand, command_of};
use console_text::line::words_in;
use console_text::numbers::number_of;

// A round's services make so many transfers at most, and it begins no more services.
const ROUND: u64 = 65536;

const SERVICES: u32 = 4096;

fn of_run(c: Controller, left: usize, limit: &[u8], eop: &[u8]) -> Option<Course> {
    let most = number_of(limit, u32::MAX)?;
    let eop = number_of(eop, u32::MAX)?;
    if (most == 0) | (c.in_service == 0) {
        return None;
    }
    Some(Course {
        controller: c,
        used: 0,
        left,
        service: 1,
        transfers: 0,
        most: u64::from(most),
        eop: u64::from(eop),
        services: 0,
    })
}

fn of_round(c: Controller, left: usize, count: &[u8]) -> Option<Course> {
    let services = number_of(count, SERVICES)?;
    if c.in_service != 0 {
        return None;
    }
    Some(Course {
        controller: c,
        used: 0,
        left,
        service: 0,
        transfers: 0,
        most: ROUND,
        eop: 0,
        services,
    })
}

// A line without its comment, on this state, with so many places left in the room.
pub fn begun(line: &[u8], c: Controller, left: usize) -> Option<Course> {
    let words = words_in(line);
    let name = &line[words.name.from..words.name.to];
    let one = &line[words.one.from..words.one.to];
    let two = &line[words.two.from..words.two.to];
    match command_of(name, words.count) {
        Command::Services(ServiceCommand::Run) => of_run(c, left, one, two),
        Command::Services(ServiceCommand::Round) => of_round(c, left, one),
        _ => None,
    }
}
