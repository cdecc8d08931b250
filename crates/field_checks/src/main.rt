// Answers questions on the fields, one to a line: 'M times A B' or 'M inverse A 0', M the width.
// The questions and the right answers are made by tools/field-table.py, by other means.
#![tactic(auto)]

use field::{Bit, Field, Gf4, Gf5, Gf12, Gf13};
use std::io::{BufRead, BufReader};

#[derive(Clone, Copy)]
enum Question {
    Times(u16, u16),
    Inverse(u16),
}

impl Question {
    // The answer in the field F.
    fn answer<F: Field>(self) -> u16 {
        match self {
            Question::Times(a, b) => F::mul(a, b),
            Question::Inverse(a) => F::invert(a),
        }
    }

    // The answer in the field of this width. A field is a type, so the number has to choose it here.
    fn answer_at(self, width: u16) -> u16 {
        match width {
            4 => self.answer::<Gf4>(),
            5 => self.answer::<Gf5>(),
            12 => self.answer::<Gf12>(),
            13 => self.answer::<Gf13>(),
            // width 1, and what has no field: each line is answered, a wrong one too
            _ => self.answer::<Bit>(),
        }
    }
}

// The number in a word, 0 where it is none: each line is answered, a wrong one too, so no error is told.
fn number(word: Option<&str>) -> u16 {
    word.and_then(|text| text.parse().ok()).unwrap_or(0)
}

fn main(rt: HostRuntime) -> anyhow::Result<()> {
    let heap = rt.alloc();
    for line in BufReader::new(heap, rt.stdin())?.lines(heap) {
        let line = line?;
        let mut words = line.split_whitespace();
        let width = number(words.next());
        let what = words.next();
        let a = number(words.next());
        let b = number(words.next());
        // The word is text from outside, and here it becomes a question; any word but this asks an inverse.
        let question = match what {
            Some("times") => Question::Times(a, b),
            _ => Question::Inverse(a),
        };
        println!(rt; "{}", question.answer_at(width))?;
    }
    Ok(())
}
