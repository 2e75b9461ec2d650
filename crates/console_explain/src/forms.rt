// A line held against the form in a row of help, as `poke ADDR HEX`: each word of the form says what stands in its place.
use console_text::hex::is_bytes;
use console_text::numbers::number_of;

// What is wrong with a word.
#[derive(Clone, Copy)]
pub(crate) enum Fault {
    NoBytes,
    NoNumber,
    NoByte,
    NoSwitch,
}

// What is wrong with a word that stands in this place of a form.
pub(crate) fn fault_of(place: &[u8], said: &[u8]) -> Option<Fault> {
    match place {
        b"FILE" | b"FROM" | b"TO" | b"COMMAND" => None,
        b"HEX" if is_bytes(said) => None,
        b"HEX" => Some(Fault::NoBytes),
        // a right one is not the console's, and has no fault
        b"SWITCH" => Some(Fault::NoSwitch),
        _ => match (place, number_of(said, u32::MAX)) {
            (_, None) => Some(Fault::NoNumber),
            (b"BYTE", Some(256..)) => Some(Fault::NoByte),
            _ => None,
        },
    }
}
