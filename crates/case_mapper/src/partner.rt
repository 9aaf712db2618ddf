// The six characters that such a terminal lacks, and the signs that stand for them behind a backslash.
// Both ways are cases of char literals, a form that is set (docs/DECISIONS.md, Forms); one table read both ways would need a search.
ghost use Rattle.std.specs.Prelude.{◌≡◌};
ghost use Rattle.case_mapper.specs.Case.{partner, lacking, signs};

/// The sign that stands for a character.
pub fn sign_of(c: char) -> Option<char>
    ensures value { result ≡ partner lacking signs c }
{
    match c {
        '`' => Some('\''),
        '|' => Some('!'),
        '~' => Some('^'),
        '{' => Some('('),
        '}' => Some(')'),
        '\\' => Some('\\'),
        _ => None,
    }
}

/// The character that a sign stands for.
pub fn meant_by(c: char) -> Option<char>
    ensures value { result ≡ partner signs lacking c }
{
    match c {
        '\'' => Some('`'),
        '!' => Some('|'),
        '^' => Some('~'),
        '(' => Some('{'),
        ')' => Some('}'),
        '\\' => Some('\\'),
        _ => None,
    }
}
