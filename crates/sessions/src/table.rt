// The table: one line a case, with what came and what should.
use bits::Refusal;

// What stands in the table as a number. One impl for each type: one for all that are Into<u64> may not stand beside those of Option and Result.
pub trait Cell {
    fn number(self) -> u64;
}

impl Cell for u8 {
    fn number(self) -> u64 {
        u64::from(self)
    }
}

impl Cell for u16 {
    fn number(self) -> u64 {
        u64::from(self)
    }
}

impl Cell for u64 {
    fn number(self) -> u64 {
        self
    }
}

impl Cell for usize {
    fn number(self) -> u64 {
        self as u64
    }
}

// A yes is 1.
impl Cell for bool {
    fn number(self) -> u64 {
        u64::from(self)
    }
}

impl Cell for () {
    fn number(self) -> u64 {
        0
    }
}

impl Cell for Refusal {
    fn number(self) -> u64 {
        u64::from(self.code())
    }
}

// Nothing is 0.
impl<T: Cell> Cell for Option<T> {
    fn number(self) -> u64 {
        match self {
            Some(value) => value.number(),
            None => 0,
        }
    }
}

impl<T: Cell, E: Cell> Cell for Result<T, E> {
    fn number(self) -> u64 {
        match self {
            Ok(value) => value.number(),
            Err(error) => error.number(),
        }
    }
}

#[derive(Clone, Copy, Default)]
pub struct Table {
    cases: u64,
    wrong: u64,
}

impl Table {
    pub fn row<A: Cell, B: Cell, C: Cell>(
        &mut self,
        rt: &HostRuntime,
        name: &str,
        came: (A, B, C),
        expected: [u64; 3],
    ) -> anyhow::Result<()> {
        let (a, b, c) = came;
        let came = [a.number(), b.number(), c.number()];
        self.cases = self.cases.saturating_add(1);
        self.wrong = self.wrong.saturating_add(u64::from(came != expected));
        let [a, b, c] = came;
        let [x, y, z] = expected;
        println!(rt; "  {name}: {a} {b} {c}, expected {x} {y} {z}")?;
        Ok(())
    }

    pub fn show(&self, rt: &HostRuntime) -> anyhow::Result<()> {
        println!(rt; "{} cases, {} wrong", self.cases, self.wrong)?;
        Ok(())
    }
}
