//! Marks of numbers.

ghost use Rattle.std.specs.Prelude.{◌≡◌, ◌≢◌, ◌⊎◌, ◌<◌, ℕ, true, false, get_or};
ghost use Rattle.node_cache.specs.Marked.{is_marked};

use std::alloc::Global;

/// So many first numbers have their marks in the value itself.
const NEAR: usize = 64;

/// Which numbers are marked. The marks of the first numbers lie in the value itself, since one is looked at on each way down a tree; of the others a byte each is kept,
/// up to the greatest that was ever marked.
#[derive(Drop)]
pub struct Marks {
    near: [bool; NEAR],
    far: Vec<bool>,
}

/// The mark at a place, where there is one.
fn mark_at(marks: &[bool], at: usize) -> bool
    ensures { result ≡ get_or marks.now at false }
{
    match marks.get(at) {
        Some(mark) => *mark,
        None => false,
    }
}

/// Sets the mark at a place, where there is one.
fn set_at(marks: &mut [bool], at: usize, mark: bool)
    ensures others { (n : ℕ) → n ≢ at → get_or marks.new n false ≡ get_or marks.old n false }
    ensures here { get_or marks.new at false ≡ true → mark ≡ true }
{
    if at < marks.len() {
        marks[at] = mark;
    }
}

/// Sets the mark at a place, to which the marks are made to reach. Where memory is wanting they stay as they were.
fn add_far(marks: &mut Vec<bool>, at: usize)
    requires { at < 4294967296 }
    ensures { (n : ℕ) → get_or marks.new.items n false ≡ true → (n ≡ at) ⊎ (get_or marks.old.items n false ≡ true) }
{
    if at >= marks.len() && marks.resize(at + 1, false).is_err() {
        return;
    }
    set_at(marks, at, true);
}

impl Marks {
    /// No number is marked. It takes no memory.
    pub fn new(alloc: Global) -> Marks
        ensures { (n : ℕ) → is_marked result n ≡ false }
    {
        Marks {
            near: [false; NEAR],
            far: Vec::new(alloc),
        }
    }

    /// Whether a number is marked.
    pub fn has(&self, number: u32) -> bool
        ensures { result ≡ is_marked self.now number }
    {
        let number = number as usize;
        if number < NEAR {
            mark_at(&self.near, number)
        } else {
            mark_at(&self.far, number - NEAR)
        }
    }

    /// Marks a number. Where memory is wanting, it stays as it was.
    pub fn add(&mut self, number: u32)
        ensures { (n : ℕ) → is_marked self.new n ≡ true → (n ≡ number) ⊎ (is_marked self.old n ≡ true) }
    {
        let number = number as usize;
        if number < NEAR {
            set_at(&mut self.near, number, true);
        } else {
            add_far(&mut self.far, number - NEAR);
        }
    }

    /// Takes a number's mark away. It takes no memory.
    pub fn take(&mut self, number: u32)
        ensures { (n : ℕ) → is_marked self.new n ≡ true → (n ≢ number) × (is_marked self.old n ≡ true) }
    {
        let number = number as usize;
        if number < NEAR {
            set_at(&mut self.near, number, false);
        } else {
            set_at(&mut self.far, number - NEAR, false);
        }
    }
}
