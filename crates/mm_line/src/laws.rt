//! What holds of the definitions of tokens and lines. Each function's contract is the law; the functions do nothing.
ghost use Rattle.std.specs.Prelude.{◌≡◌, ◌<◌, ◌∷◌, ◌++◌, true, false, ℕ, List, length, codes, decimal, Some};
ghost use Rattle.std.specs.List.{AllByRecursion};
ghost use Rattle.std.specs.Str.Parse.{digits_value};
ghost use Rattle.mm_line.specs.declared.class.Class.TheVariants.{Blank, NameByte, Decimal, Hexadecimal};
ghost use Rattle.mm_line.specs.declared.token.Token.TheVariants.{Name, Directive, Comma, Colon, Plus};
ghost use Rattle.mm_line.specs.Tokens.{is_in, starts, number, next_token};
ghost use Rattle.mm_line.specs.TokenPlaces.{StandsIn, written};
ghost use Rattle.mm_line.specs.Words.{register_named};
ghost use Rattle.mm_line.specs.Forms.{is_name, is_digits, IsLongest};
ghost use Rattle.mm_line.specs.Statements.{line_of};
ghost use Rattle.mm_line.specs.Ranges.{IsLine, NamesItsClaim};
ghost use Rattle.mm_line.specs.Examples.{IsRead, IsNext, directives, operations, faulty, labels, some_tokens};

/// Tokens, read by the definition: each is the longest that begins at its place.
pub fn worked_tokens()
    ensures { AllByRecursion IsNext some_tokens }
{}

/// Lines, read by the definition: each directive, and what it claims.
pub fn worked_directives()
    ensures { AllByRecursion IsRead directives }
{}

/// Operations with each kind of operand, read by the definition.
pub fn worked_operations()
    ensures { AllByRecursion IsRead operations }
{}

/// Faults with their places, read by the definition: a missing token is at the line's end.
pub fn worked_faults()
    ensures { AllByRecursion IsRead faulty }
{}

/// Labels, read by the definition.
pub fn worked_labels()
    ensures { AllByRecursion IsRead labels }
{}

/// Each token is in its line, after blanks and before what is left of the line. What is left gets shorter.
pub fn tokens_stand_in_their_line()
    ensures { (line : List ℕ) → StandsIn line (next_token line) }
{}

/// The values of a line are in their ranges, and its places lie in it.
pub fn lines_are_in_range()
    ensures { (bytes : List ℕ) → IsLine (length bytes) (line_of bytes) }
{}

/// A statement that is read claims what it names.
pub fn statements_claim_what_they_name()
    ensures { (bytes : List ℕ) → NamesItsClaim (line_of bytes).body }
{}

/// Each token has its form, and is the longest that begins at its place.
pub fn tokens_are_the_longest()
    ensures { (line : List ℕ) → IsLongest (next_token line) }
{}

/// A register's name is `r` and its number in decimal.
pub fn registers_are_named_by_their_numbers()
    ensures named { (r : ℕ) → r < 16 → register_named (codes "r" ++ decimal r) ≡ Some r }
    ensures only { (name : List ℕ) (r : ℕ) → register_named name ≡ Some r → (r < 16) × (name ≡ codes "r" ++ decimal r) }
{}

/// What is written as a token is read as that token, if the byte after it does not continue it.
pub fn written_tokens_are_read()
    ensures blank { (b : ℕ) (line : List ℕ) → is_in Blank b ≡ true → next_token (b ∷ line) ≡ next_token line }
    ensures comma { (rest : List ℕ) → next_token (codes "," ++ rest) ≡ written Comma (codes ",") rest }
    ensures colon { (rest : List ℕ) → next_token (codes ":" ++ rest) ≡ written Colon (codes ":") rest }
    ensures plus { (rest : List ℕ) → next_token (codes "+" ++ rest) ≡ written Plus (codes "+") rest }
    ensures name { (name rest : List ℕ) → is_name name ≡ true → starts NameByte rest ≡ false
        → next_token (name ++ rest) ≡ written Name name rest }
    ensures directive { (name rest : List ℕ) → is_name name ≡ true → starts NameByte rest ≡ false
        → next_token ((codes "." ++ name) ++ rest) ≡ written Directive (codes "." ++ name) rest }
    ensures decimal { (digits rest : List ℕ) → is_digits Decimal digits ≡ true → starts NameByte rest ≡ false
        → next_token (digits ++ rest) ≡ written (number false (digits_value 10 digits)) digits rest }
    ensures negative { (digits rest : List ℕ) → is_digits Decimal digits ≡ true → starts Decimal rest ≡ false
        → next_token ((codes "-" ++ digits) ++ rest) ≡ written (number true (digits_value 10 digits))
        (codes "-" ++ digits) rest }
    ensures hexadecimal { (digits rest : List ℕ) → is_digits Hexadecimal digits ≡ true → starts Hexadecimal rest ≡ false
        → next_token ((codes "0x" ++ digits) ++ rest) ≡ written (number false (digits_value 16 digits))
        (codes "0x" ++ digits) rest }
{}
