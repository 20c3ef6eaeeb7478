// What is so small that an array of it fits in memory.
ghost use Rattle.std.specs.Prelude.{◌≤◌};
ghost use Rattle.std.specs.Mem.{type_size};
ghost use Rattle.std.proofs.Common.{rules};

use conv_theory::Cost;

pub(crate) trait Small: Copy {
    ghost short: { type_size Self.row ≤ 8 };
}

impl Small for u8 {
    ghost short = { Prim.search rules };
}

impl Small for u16 {
    ghost short = { Prim.search rules };
}

impl Small for u32 {
    ghost short = { Prim.search rules };
}

impl Small for Cost {
    ghost short = { Prim.search rules };
}
