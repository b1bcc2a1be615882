// A line of the planner's input: the rule that it asks for, or what was expected where it cannot be read.
use planner::plan::Request;
use scan::scanner::Scanner;
use scan::scanner::stations::SetFault;
use std::alloc::{AllocFailed, Global};
use thiserror::Error;

// What was expected where a line cannot be read.
#[derive(Clone, Copy, Debug, Error)]
pub enum Expected {
    #[error("'count' or 'group'")]
    Rule,
    #[error("the number of stations, 0 to 65535")]
    Stations,
    #[error("the number that may be broken, 0 to 65535")]
    Broken,
    #[error("a set such as {{0,1,2}}, or the end of the line")]
    Set,
    #[error("a station, 0 to 15")]
    Station,
    #[error("',' or '}}'")]
    CommaOrBrace,
    #[error("the end of the line")]
    End,
}

// Why reading stops: the text is not as expected, or there is no memory.
#[derive(Drop)]
pub enum Stop {
    Text(Expected),
    Memory,
}

impl From<Expected> for Stop {
    fn from(e: Expected) -> Stop {
        Stop::Text(e)
    }
}

impl<T: Drop> From<AllocFailed<T>> for Stop {
    fn from(_e: AllocFailed<T>) -> Stop {
        Stop::Memory
    }
}

// What was expected where a set cannot be read.
impl From<SetFault> for Stop {
    fn from(fault: SetFault) -> Stop {
        Stop::Text(match fault {
            SetFault::Brace => Expected::Set,
            SetFault::Station => Expected::Station,
            SetFault::CommaOrBrace => Expected::CommaOrBrace,
        })
    }
}

// The sets up to the end of the line.
fn sets(heap: Global, scanner: &mut Scanner) -> Result<Vec<u16>, Stop> {
    let mut masks = Vec::new(heap);
    while !scanner.ends() {
        masks.push(scanner.set()?)?;
    }
    Ok(masks)
}

// The numbers of a count rule, up to the end of the line.
fn count(scanner: &mut Scanner) -> Result<Request, Expected> {
    let n = scanner.short(u16::MAX).ok_or(Expected::Stations)?;
    let t = scanner.short(u16::MAX).ok_or(Expected::Broken)?;
    scanner
        .ends()
        .then_some(Request::Count { n, t })
        .ok_or(Expected::End)
}

// The rule that stands next, up to the end of the line. A chain of words and no table, since each is followed by a reading of its own.
pub fn request(heap: Global, scanner: &mut Scanner) -> Result<Request, Stop> {
    if scanner.take_word(b"count") {
        return Ok(count(scanner)?);
    }
    if scanner.take_word(b"group") {
        let n = scanner.short(u16::MAX).ok_or(Expected::Stations)?;
        let masks = sets(heap, scanner)?;
        return Ok(Request::Group { n, masks });
    }
    Err(Stop::Text(Expected::Rule))
}
