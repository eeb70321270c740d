// How often each call and each answer came up.
use crate::input::Call;
use crate::judge::Said;
use std::io;
use std::io::Write;

// The calls by their kinds, the steps and the refusals by their numbers, and how many lists, calls and differences there were.
#[derive(Drop)]
pub struct Tally {
    kinds: [usize; 10],
    steps: usize,
    refusals: [usize; 10],
    lists: usize,
    calls: usize,
    differences: usize,
}

fn count(n: &mut usize) {
    *n = n.wrapping_add(1);
}

impl Tally {
    pub fn new() -> Tally {
        Tally {
            kinds: [0; 10],
            steps: 0,
            refusals: [0; 10],
            lists: 0,
            calls: 0,
            differences: 0,
        }
    }

    pub fn call(&mut self, call: Option<Call>, said: Said) {
        count(&mut self.calls);
        if let Some(kind) = call {
            count(&mut self.kinds[kind as usize]);
        }
        match said.answer {
            Ok(_) => count(&mut self.steps),
            Err(q) => {
                if let Some(n) = self.refusals.get_mut(q) {
                    count(n);
                }
            }
        }
    }

    pub fn list(&mut self) {
        count(&mut self.lists);
    }

    pub fn difference(&mut self) {
        count(&mut self.differences);
    }

    // What was asked, how often which answer came, and whether all agreed.
    pub fn report<W: Write>(&self, out: &mut W) -> io::Result<()> {
        let names = [
            "face",
            "interval",
            "boundary",
            "endpoint",
            "forall",
            "face-shift",
            "interval-shift",
            "face-substitute",
            "interval-substitute",
            "entails",
        ];
        write!(out, "calls")?;
        for (i, name) in names.iter().enumerate() {
            let before = if i == 0 { ":" } else { "," };
            write!(out, "{before} {name} {}", self.kinds[i])?;
        }
        write!(out, "\nanswers: a step {}", self.steps)?;
        for q in 1..10 {
            let before = if q == 1 { " refused" } else { "" };
            write!(out, ",{before} {q}: {}", self.refusals[q])?;
        }
        writeln!(out)?;
        writeln!(
            out,
            "{} lists, {} calls, differences: {}",
            self.lists, self.calls, self.differences
        )
    }
}
