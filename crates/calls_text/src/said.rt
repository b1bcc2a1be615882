// What is said to a line of a script.
use agreement::stage::Answer;
use refusals::Refusal;
use std::fmt;

// What came of a making or of a call, or that the line cannot be read. A round has the digest of its sheet.
#[derive(Drop)]
pub enum Said {
    Made(Result<(), Refusal>),
    Answered(Result<Answer<u16>, Refusal>),
    Rounded(Result<Answer<u16>, Refusal>, u32),
    Unreadable,
}

// The number of a refusal.
fn write_refusal<W: fmt::Write>(f: &mut fmt::Formatter<W>, refusal: &Refusal) -> fmt::Result {
    let number = refusal.number();
    write!(f, "no {number}")
}

// The answer to a call.
fn write_answer<W: fmt::Write>(
    f: &mut fmt::Formatter<W>,
    answer: &Result<Answer<u16>, Refusal>,
) -> fmt::Result {
    match answer {
        Ok(Answer::Done) => f.write_str("ok"),
        Ok(Answer::Word(code)) => write!(f, "word {code}"),
        Ok(Answer::Lit(lit)) => write!(f, "lamp {lit}"),
        Err(refusal) => write_refusal(f, refusal),
    }
}

impl fmt::Display for Said {
    fn fmt<W: fmt::Write>(&self, f: &mut fmt::Formatter<W>) -> fmt::Result {
        match self {
            Said::Made(Ok(_)) => f.write_str("made\n"),
            Said::Made(Err(refusal)) => {
                write_refusal(f, refusal)?;
                f.write_str("\n")
            }
            Said::Answered(answer) => {
                write_answer(f, answer)?;
                f.write_str("\n")
            }
            Said::Rounded(answer, digest) => {
                write_answer(f, answer)?;
                write!(f, " {digest:08x}\n")
            }
            Said::Unreadable => f.write_str("cannot be read\n"),
        }
    }
}
