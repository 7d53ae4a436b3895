// Replays answers of the Rust: lines `argument,plain,fused` on standard input, differences and counts on standard output.
#![tactic(auto)]

use double_double::arithmetic::Arithmetic;
use double_double::fused::Fused;
use double_double::plain::Plain;
use erfc::answer::Refusal;
use replay::compare::{Comparison, Counts, Expected, replay};
use replay::line::{LENGTH, Line, Malformed};
use std::io::{BufReader, Read};
use std::{fmt, io};

// An answer that differs from the expected one.
#[derive(Clone, Copy)]
struct Difference {
    side: &'static str,
    expected: Expected,
    got: u64,
}

impl fmt::Display for Difference {
    fn fmt<W: fmt::Write>(&self, f: &mut fmt::Formatter<W>) -> fmt::Result {
        let side = self.side;
        let Expected { argument, answer } = self.expected;
        let got = self.got;
        write!(f, "differs,{side},{argument:016x},{answer:016x},{got:016x}")
    }
}

// One arithmetic with its name and what came of its comparisons.
#[derive(Drop)]
struct Side<A: Arithmetic> {
    name: &'static str,
    arith: A,
    counts: Counts,
}

impl<A: Arithmetic> Side<A> {
    fn new(name: &'static str, arith: A) -> Self {
        Side {
            name,
            arith,
            counts: Counts::default(),
        }
    }

    // Evaluates and counts; an argument that is refused is not counted.
    fn take(&mut self, expected: Expected) -> Result<Option<Difference>, Refusal> {
        let comparison = replay(&mut self.arith, expected)?;
        self.counts.count(comparison);
        Ok(match comparison {
            Comparison::Differs(got) => Some(Difference {
                side: self.name,
                expected,
                got,
            }),
            Comparison::Equal | Comparison::Skipped => None,
        })
    }
}

impl<A: Arithmetic> fmt::Display for Side<A> {
    fn fmt<W: fmt::Write>(&self, f: &mut fmt::Formatter<W>) -> fmt::Result {
        write!(
            f,
            "{},{},{}",
            self.name, self.counts.compared, self.counts.equal
        )
    }
}

// Why no line was read; `main` alone tells the two apart.
#[derive(Drop)]
enum ReadError {
    Io(io::Error),
    Malformed(Malformed),
}

impl From<io::Error> for ReadError {
    fn from(error: io::Error) -> Self {
        ReadError::Io(error)
    }
}

impl From<Malformed> for ReadError {
    fn from(fault: Malformed) -> Self {
        ReadError::Malformed(fault)
    }
}

// The next bytes of the input, as many as a line has or as are left. The loop stays, since `read_exact` and `read_until` try again where a read is interrupted, which is an error of the input here as any other.
fn fill(input: &mut impl Read, bytes: &mut [u8; LENGTH]) -> io::Result<usize> {
    let mut have = 0usize;
    for _ in 0..LENGTH {
        if have >= LENGTH {
            break;
        }
        let n = input.read(&mut bytes[have..])?;
        if n == 0 {
            break;
        }
        have += n;
    }
    Ok(have)
}

// The next line, or none at the end of the input. Its bytes are all read before they are looked at, so that an error of the input goes before a fault of theirs.
fn next_line(input: &mut impl Read) -> Result<Option<Line>, ReadError> {
    let mut bytes = [0u8; LENGTH];
    let have = fill(input, &mut bytes)?;
    if have == 0 {
        return Ok(None);
    }
    if have < LENGTH {
        return Err(Malformed.into());
    }
    Ok(Some(Line::try_from(&bytes[..])?))
}

fn main(rt: HostRuntime) -> anyhow::Result<()> {
    let mut input = BufReader::new(rt.alloc(), rt.stdin())?;
    let mut plain = Side::new("plain", Plain);
    let mut fused = Side::new("fused", Fused);
    let mut refused = 0u64;
    for number in 1..u64::MAX {
        let line = match next_line(&mut input) {
            Ok(Some(line)) => line,
            Ok(None) => break,
            Err(ReadError::Malformed(fault)) => {
                println!(rt; "fault,{number}")?;
                return Err(fault.into());
            }
            Err(ReadError::Io(error)) => return Err(error.into()),
        };
        match plain.take(Expected {
            argument: line.argument,
            answer: line.plain,
        }) {
            Ok(Some(difference)) => println!(rt; "{difference}")?,
            Ok(None) => {}
            // fused refuses it too
            Err(_) => refused = refused.saturating_add(1),
        }
        if let Ok(Some(difference)) = fused.take(Expected {
            argument: line.argument,
            answer: line.fused,
        }) {
            println!(rt; "{difference}")?;
        }
    }
    println!(rt; "{plain}")?;
    println!(rt; "{fused}")?;
    println!(rt; "refused,{refused}")?;
    Ok(())
}
