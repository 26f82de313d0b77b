// The console: each line of standard input is a command, and is answered by one line.
#![tactic(auto)]

ghost use Rattle.std.specs.Prelude.{◌≡◌, [], MatchResult};
ghost use Rattle.lines.specs.declared.refusal.RecordRefusal.TheVariants.{OddOctetCount};
ghost use Rattle.stacks.specs.declared.record.RecordKind.TheVariants.{Marks};
ghost use Rattle.stacks.specs.Records.{Suits, marks_in, recorded};

use commands::answer::Answer;
use commands::command::Command;
use commands::work::obey;
use desk::desk::Desk;
use desk::reading::read;
use desk::report::Report;
use lines::refusal::RecordRefusal;
use stacks::record::{Record, RecordKind};
use stacks::stack::Stack;
use std::alloc::Global;
use std::fmt::Display;
use std::io;
use std::io::{BufRead, BufReader, Stdin};
use std::str::from_utf8;

// A record as it was chosen.
#[derive(Drop)]
struct Choice {
    kind: RecordKind,
    octets: Vec<u8>,
    ghost suits: { Suits kind octets.items },
}

impl Choice {
    // A mark record of no octets.
    fn empty(heap: Global) -> Choice
        ensures kind { result.kind ≡ Marks }
        ensures octets { result.octets.items ≡ [] }
    {
        Choice {
            kind: RecordKind::Marks,
            octets: Vec::new(heap),
        }
    }

    // A record of a kind, where it is not refused.
    fn new(kind: RecordKind, octets: Vec<u8>) -> Result<Choice, RecordRefusal>
        ensures { MatchResult result (λ c. (c.kind ≡ kind) × (c.octets ≡ octets)) (λ e. e ≡ OddOctetCount) }
    {
        Record::new(kind, octets.as_slice())?;
        Ok(Choice { kind, octets })
    }

    // The line that gives the marks of the record.
    fn record(&self) -> Record<'_>
        ensures { recorded result ≡ marks_in self.now.kind self.now.octets.items }
    {
        Record::new(self.kind, self.octets.as_slice()).unwrap()
    }
}

// Prints an answer, or why there is none.
fn say<T: Display + Drop, E: Display + Drop>(
    rt: &HostRuntime,
    answer: Result<T, E>,
) -> io::Result<()> {
    match answer {
        Ok(answer) => println!(rt; "{answer}"),
        Err(undone) => println!(rt; "{undone}"),
    }
}

// Answers commands at a record, until another is chosen or the input ends. The desk stays from record to record.
fn serve(
    rt: &HostRuntime,
    input: &mut BufReader<Stdin>,
    choice: &Choice,
    desk: &mut Desk,
) -> io::Result<Option<Choice>> {
    let heap = rt.alloc();
    let mut line = Stack::Bare(choice.record());
    // counted, since every loop is proved to end and an input may be of any length
    for _ in 0..u64::MAX {
        let mut typed = Vec::new(heap);
        if input.read_until(b'\n', &mut typed)? == 0 {
            return Ok(None);
        }
        let Ok(text) = from_utf8(typed.as_slice()) else {
            println!(rt; "error: not text")?;
            continue;
        };
        if let Some(said) = read(heap, text) {
            match said {
                Ok(order) => {
                    let answer = desk.obey(heap, &mut line, order);
                    let report = answer.map(|answer| Report {
                        answer,
                        marks: desk.marks(),
                        frame: desk.frame(),
                    });
                    say(rt, report)?;
                }
                Err(misread) => println!(rt; "{misread}")?,
            }
            continue;
        }
        match Command::read(heap, text) {
            Ok(Command::Choose(kind, octets)) => match Choice::new(kind, octets) {
                Ok(next) => {
                    println!(rt; "{}", Answer::Chosen(kind, next.octets.len()))?;
                    return Ok(Some(next));
                }
                Err(refusal) => println!(rt; "{}", Answer::Refused(refusal))?,
            },
            Ok(Command::Work(order)) => {
                let (answer, next) = obey(heap, choice.kind, line, order);
                line = next;
                say(rt, answer)?;
            }
            Err(misread) => println!(rt; "{misread}")?,
        }
    }
    Ok(None)
}

fn main(rt: HostRuntime) -> io::Result<()> {
    let mut input = BufReader::new(rt.alloc(), rt.stdin())?;
    let mut choice = Choice::empty(rt.alloc());
    let mut desk = Desk::new(rt.alloc())?;
    // counted for the same reason
    for _ in 0..u64::MAX {
        let Some(next) = serve(&rt, &mut input, &choice, &mut desk)? else {
            break;
        };
        choice = next;
    }
    Ok(())
}
