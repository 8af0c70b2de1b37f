//! Words that no name may be given by a refactoring.

ghost use Rattle.std.specs.List.{list_any};
ghost use Rattle.std.specs.Prelude.{◌≡◌};
ghost use Rattle.std.specs.Str.{bytes_eq};
ghost use Rattle.ftn_base.specs.Keywords as spec;

const KEYWORDS: [&[u8]; 91] = [
    b"program",
    b"module",
    b"subroutine",
    b"function",
    b"procedure",
    b"result",
    b"contains",
    b"use",
    b"only",
    b"implicit",
    b"none",
    b"interface",
    b"integer",
    b"logical",
    b"character",
    b"len",
    b"parameter",
    b"dimension",
    b"save",
    b"public",
    b"private",
    b"external",
    b"intrinsic",
    b"intent",
    b"in",
    b"out",
    b"inout",
    b"common",
    b"equivalence",
    b"call",
    b"if",
    b"then",
    b"else",
    b"elseif",
    b"do",
    b"while",
    b"exit",
    b"cycle",
    b"select",
    b"selectcase",
    b"case",
    b"default",
    b"stop",
    b"return",
    b"continue",
    b"print",
    b"write",
    b"read",
    b"end",
    b"endprogram",
    b"endmodule",
    b"endsubroutine",
    b"endfunction",
    b"endinterface",
    b"endif",
    b"enddo",
    b"endselect",
    b"endblock",
    b"endblockdata",
    b"real",
    b"complex",
    b"double",
    b"doubleprecision",
    b"type",
    b"pointer",
    b"target",
    b"allocatable",
    b"allocate",
    b"deallocate",
    b"nullify",
    b"recursive",
    b"optional",
    b"go",
    b"goto",
    b"format",
    b"entry",
    b"namelist",
    b"where",
    b"elsewhere",
    b"include",
    b"assign",
    b"pause",
    b"data",
    b"block",
    b"blockdata",
    b"open",
    b"close",
    b"inquire",
    b"rewind",
    b"backspace",
    b"endfile",
];

const INTRINSICS: [&[u8]; 11] = [
    b"abs",
    b"mod",
    b"sign",
    b"min",
    b"max",
    b"len",
    b"len_trim",
    b"trim",
    b"ichar",
    b"char",
    b"index",
];

fn is_text(word: &[u8], text: &[u8]) -> bool
    ensures { result ≡ bytes_eq text.now word.now }
{
    text == word
}

fn is_one_of(words: &[&[u8]], word: &[u8]) -> bool
    ensures { result ≡ list_any (λ entry. bytes_eq entry.now word.now) words.now }
{
    words.iter().any(|entry| is_text(word, entry))
}

/// Whether the word, in lower case, is one of the words of statements, by this project's own table. The word
/// itself is not folded.
pub fn is_keyword(word: &[u8]) -> bool
    ensures { result ≡ spec.is_keyword word.now }
{
    is_one_of(&KEYWORDS, word)
}

/// Whether the word, in lower case, names an intrinsic function of the profile (13.10). The word itself is
/// not folded.
pub fn is_intrinsic(word: &[u8]) -> bool
    ensures { result ≡ spec.is_intrinsic word.now }
{
    is_one_of(&INTRINSICS, word)
}
