// Numbers: unary in judgements, decimal for steps.
ghost use Rattle.writing.specs.Texts.{unary_text, decimal_text};
ghost use Rattle.writing.specs.Writing.{Room, Writes};

use crate::Writer;

impl Writer<'_> {
    // Writes n in unary. Where the output ends before it, only its length counts.
    pub fn unary(&mut self, n: usize)
        requires { Room self.old.to (unary_text n) }
        ensures { Writes (unary_text n) self.old self.new }
    {
        let to = self.to;
        if self.out.len() <= to {
            self.to = to + (4 * n + 1);
            return;
        }
        self.put_times(b"(s ", n);
        self.put_byte(b'z');
        self.put_times(b")", n);
    }

    // Writes n in decimal.
    pub fn decimal(&mut self, n: usize)
        requires { Room self.old.to (decimal_text n) }
        ensures { Writes (decimal_text n) self.old self.new }
    {
        if n < 10 {
            self.put_byte(b'0' + n as u8);
            return;
        }
        self.decimal(n / 10);
        self.put_byte(b'0' + (n % 10) as u8);
    }
}
