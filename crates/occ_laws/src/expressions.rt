//! Programs that show what expressions and assignments come to. Each function's contract is the row; its body does nothing.

ghost use Rattle.occ_laws.specs.ExpressionExamples.{ChainPlays, NextLetterPlays, RemainderPlays, SwapPlays};

/// `(MOSTNEG INT) \\ (-1)` is 0.
pub fn remainder()
    ensures { RemainderPlays }
{}

/// `'a' + 1(BYTE)` is `b`.
pub fn next_letter()
    ensures { NextLetterPlays }
{}

/// `a AND b AND c`, grouped to the left.
pub fn chain()
    ensures { ChainPlays }
{}

/// Two components change places.
pub fn swap()
    ensures { SwapPlays }
{}
