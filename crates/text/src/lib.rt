// Text printed into a lent buffer: a byte, numbers in decimal, and the columns and lines that several programs print alike.
#![tactic(auto, using(crate::proofs::Printing::printing))]

ghost use Rattle.std.specs.Prelude.{true, ◌≡◌, ◌∷◌, []};
ghost use Rattle.answer.specs.Text.{decimal_in};
ghost use Rattle.text.specs.Columns.{column_in, pair, signed, hour_minute, quarters, number_line};
ghost use Rattle.text.specs.Printed.{Printed};
ghost use Rattle.text.specs.Laws.{Laws};

use answer::digit;

// A lent buffer, and the place in it where the next text stands.
#[derive(Drop)]
pub struct Printer<'a> {
    pub buffer: &'a mut [u8],
    pub at: usize,
}

impl<'a> Printer<'a> {
    pub fn put(&mut self, b: u8)
        ensures { Printed self.old (b ∷ []) self.new }
    {
        if self.at < self.buffer.len() {
            self.buffer[self.at] = b;
            self.at += 1;
        }
    }

    // In decimal with no 0 in front, where k digits hold it; else its k lowest digits.
    #[tactic(auto, using(crate::proofs::Printing::digits))]
    pub fn decimal(&mut self, n: usize, k: usize)
        ensures { Printed self.old (decimal_in k n) self.new }
    {
        if k == 0 {
            return;
        }
        if n < 10 {
            self.put(digit(n));
            return;
        }
        self.decimal(n / 10, k - 1);
        self.put(digit(n));
    }

    // A gap, and a number of at most k digits.
    pub fn column(&mut self, n: usize, k: usize)
        ensures { Printed self.old (column_in k n) self.new }
    {
        self.put(b' ');
        self.decimal(n, k);
    }

    // Two columns of numbers that are bytes.
    pub fn pair(&mut self, a: u8, b: u8)
        ensures { Printed self.old (pair a b) self.new }
    {
        self.column(a as usize, 3);
        self.column(b as usize, 3);
    }

    // A gap, and a sign after it where one is shown.
    pub fn sign(&mut self, sign: u8, shown: bool)
        ensures { Printed self.old (signed sign shown) self.new }
    {
        self.put(b' ');
        if shown {
            self.put(sign);
        }
    }

    // '`h:m`.'
    pub fn hour_minute(&mut self, h: u8, m: u8)
        ensures { Printed self.old (hour_minute h m) self.new }
    {
        self.decimal(h as usize, 3);
        self.put(b':');
        self.decimal(m as usize, 3);
    }

    // 'With `-` where it is negative.'
    pub fn quarters(&mut self, q: u8, negative: bool)
        ensures { Printed self.old (quarters q negative) self.new }
    {
        self.sign(b'-', negative);
        self.decimal(q as usize, 3);
    }

    // A letter, and a number.
    pub fn number_line(&mut self, letter: u8, n: usize)
        ensures { Printed self.old (number_line letter n) self.new }
    {
        self.put(letter);
        self.column(n, 3);
        self.put(b'\n');
    }
}

// The laws of printed texts, as a promise of the crate.
#[tactic(auto, using(crate::proofs::Proved::laws))]
pub fn lawful() -> bool
    ensures { (result ≡ true) × Laws }
{
    true
}
