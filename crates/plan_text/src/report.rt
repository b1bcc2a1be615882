// What the planner says to a line, in words.
ghost use Rattle.std.specs.Prelude.{ℕ, IfOk};
ghost use Rattle.planner.specs.Plans.{Answers};
ghost use Rattle.plan_text.specs.Reports.{Reported};

use crate::line::{Expected, Stop, request};
use planner::plan::{Plan, Request, Unmade, answer};
use rules::king::Kings;
use scan::scanner::Scanner;
use sets::text::Listed;
use std::alloc::{AllocError, Global};
use std::fmt;

// What is said of a rule: what was asked for, and its plan or why there is none.
#[derive(Drop)]
pub struct Planned {
    pub request: Request,
    pub outcome: Result<Plan, Unmade>,
}

// Where a line cannot be read, and what was expected there.
#[derive(Clone, Copy)]
pub struct Unreadable {
    pub column: usize,
    pub expected: Expected,
}

// The answer to one line of input.
#[derive(Drop)]
pub struct Report {
    pub line: u64,
    pub answer: Result<Planned, Unreadable>,
}

// What is said of the rule that is asked for.
fn plan_asked(heap: Global, request: Request) -> Result<Planned, AllocError>
    ensures { IfOk result (λ p. Answers p.request p.outcome) }
{
    let outcome = answer(heap, &request)?;
    Ok(Planned { request, outcome })
}

// The report on line number `line`, which holds these bytes; none where it is blank.
pub fn on_line(heap: Global, line: u64, text: &[u8]) -> Result<Option<Report>, AllocError>
    ensures { IfOk result (Reported line) }
{
    let mut scanner = Scanner::new(text);
    if scanner.ends() {
        return Ok(None);
    }
    let answer = match request(heap, &mut scanner) {
        Ok(request) => Ok(plan_asked(heap, request)?),
        Err(Stop::Text(expected)) => Err(Unreadable {
            column: scanner.column(),
            expected,
        }),
        Err(Stop::Memory) => return Err(AllocError),
    };
    Ok(Some(Report { line, answer }))
}

// The largest sets that can fail: for a count rule how many there are, for a group rule each of them.
fn write_largest<W: fmt::Write>(
    f: &mut fmt::Formatter<W>,
    request: &Request,
    plan: &Plan,
) -> fmt::Result {
    f.write_str("  largest sets that can fail:")?;
    match request {
        Request::Count { n: _, t } => {
            let many = plan.largest.len();
            write!(f, " the {many} sets of size {t}\n")
        }
        Request::Group { n: _, masks: _ } => {
            for m in plan.largest.iter() {
                let set = Listed { set: *m };
                write!(f, " {set}")?;
            }
            f.write_str("\n")
        }
    }
}

// The refusal with its number, and why.
fn write_refusal<W: fmt::Write>(f: &mut fmt::Formatter<W>, unmade: &Unmade) -> fmt::Result {
    let refusal = unmade.refusal;
    let number = refusal.number();
    write!(f, "  refused with {number}: {refusal}\n")?;
    match unmade.flaw {
        Some(why) => write!(f, "  because {why}\n"),
        None => Ok(()),
    }
}

// A row for each caller.
fn write_rows<W: fmt::Write>(f: &mut fmt::Formatter<W>, kings: &[Kings]) -> fmt::Result {
    f.write_str("  caller   k  rounds  kings\n")?;
    for row in kings {
        let caller = row.caller;
        let count = row.count;
        let rounds = row.rounds();
        let set = Listed { set: row.set };
        write!(f, "  {caller:>6}  {count:>2}  {rounds:>6}  {set}\n")?;
    }
    Ok(())
}

impl fmt::Display for Planned {
    fn fmt<W: fmt::Write>(&self, f: &mut fmt::Formatter<W>) -> fmt::Result {
        let request = &self.request;
        write!(f, "{request}\n")?;
        match &self.outcome {
            Ok(plan) => {
                f.write_str("  made\n")?;
                write_largest(f, request, plan)?;
                write_rows(f, plan.kings.as_slice())
            }
            Err(unmade) => write_refusal(f, unmade),
        }
    }
}

impl fmt::Display for Unreadable {
    fn fmt<W: fmt::Write>(&self, f: &mut fmt::Formatter<W>) -> fmt::Result {
        let Unreadable { column, expected } = self;
        write!(
            f,
            "cannot be read at column {column}: expected {expected}\n"
        )
    }
}

impl fmt::Display for Report {
    fn fmt<W: fmt::Write>(&self, f: &mut fmt::Formatter<W>) -> fmt::Result {
        let line = self.line;
        match &self.answer {
            Ok(planned) => write!(f, "line {line}: {planned}"),
            Err(unreadable) => write!(f, "line {line}: {unreadable}"),
        }
    }
}
