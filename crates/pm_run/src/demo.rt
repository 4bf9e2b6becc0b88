// The demo: its script, and a source that gives a text.

ghost use Rattle.pm_run.specs.Demo.{demo_text, shown_shape};
ghost use Rattle.pm_store.specs.Outside.{IsAtEnd, Moves, Rose, StaysTold};
ghost use Rattle.std.specs.Prelude.{IfOk, OnErr, OnOk, Some, codes, decimal, length, string_bytes, ◌+◌, ◌++◌, ◌<◌, ◌≡◌, ◌≤◌, ◌^◌};

use pm_store::{Failed, Source};
use std::alloc::{AllocError, Global};
use std::fmt::Write;
use std::marker::Model;

/// A text that is read from its beginning. It tells what is left of it, and never fails.
#[derive(Drop)]
pub struct TextSource {
    text: String,
    at: usize,
}

impl Model for TextSource {
    ghost use Rattle.std.specs.Prelude.{List, drop, length, string_bytes, ℕ, ◌≤◌};

    ghost Value = { List ℕ };

    ghost view = { λ s. drop s.at (string_bytes s.text) };

    ghost invariant = { λ s. s.at ≤ length (string_bytes s.text) };
}

impl TextSource {
    /// The text, of which nothing was read.
    pub fn new(text: String) -> TextSource
        ensures left { ⟦<TextSource as Source>⟧.left result ≡ Some (string_bytes text) }
        ensures value { result ≡ string_bytes text }
    {
        TextSource { text, at: 0 }
    }
}

impl Source for TextSource {
    ghost left = { λ s. Some s };

    ghost faults = { λ s. 0 };

    fn read(&mut self, buf: &mut [u8]) -> Result<usize, Failed>
        ensures within { IfOk result (λ k. k ≤ length buf.new) }
        ensures same_length { length buf.new ≡ length buf.old }
        ensures moves { IfOk result (λ k. Moves (Some self.old) (Some self.new) k buf.new) }
        ensures end { IfOk result (λ k. k ≡ 0 → 0 < length buf.new → IsAtEnd (Some self.old)) }
        ensures err { OnErr result (StaysTold (Some self.old) (Some self.new)) }
        ensures fault { OnErr result (Rose 0 0) }
        ensures never_falls { 0 ≤ 0 }
        ensures count_fits { 0 < 2 ^ 64 }
    {
        let left = &self.text.as_bytes()[self.at..];
        let count = left.len().min(buf.len());
        buf[..count].copy_from_slice(&left[..count]);
        self.at += count;
        Ok(count)
    }
}

// Adds the lines of a shape.
fn push_shape(text: &mut String, shape: &str) -> Result<(), AllocError>
    ensures { OnOk result (string_bytes text.new ≡ string_bytes text.old ++ shown_shape shape.now) }
{
    text.push_str("make a ")?;
    text.push_str(shape)?;
    text.push_str(
        "\ngive a N_VERTICES\ngive a N_FACETS\ngive a F_VECTOR\ngive a DIAMETER\ndrop a\n",
    )
}

/// The script of the demo of n dimensions.
pub(crate) fn demo_script(alloc: Global, n: u32) -> Result<String, AllocError>
    ensures { IfOk result (λ text. string_bytes text ≡ demo_text n) }
{
    let mut text = String::new(alloc);
    push_shape(&mut text, format!(in alloc; "cube {n}")?.as_str())?;
    push_shape(&mut text, format!(in alloc; "simplex {n}")?.as_str())?;
    push_shape(&mut text, format!(in alloc; "cross {n}")?.as_str())?;
    let points = u64::from(n) + 3;
    push_shape(
        &mut text,
        format!(in alloc; "cyclic {n} {points}")?.as_str(),
    )?;
    Ok(text)
}
