ghost use Rattle.std.specs.Prelude.{◌≡◌, ◌≤◌, ◌==◌, ◌||◌, not, length};
ghost use Rattle.std.specs.List.{position, position_or_len};
ghost use Rattle.tw_lex.specs.Bytes.{is_line_feed, is_blank, is_allowed, is_digit, is_word_start, is_word_byte};
ghost use Rattle.tw_lex.specs.Laws.{ends_code};

pub fn is_blank(b: u8) -> bool
    ensures { result ≡ is_blank b }
{
    matches!(b, b'\t' | b'\r' | b' ')
}

/// Whether a byte may stand outside a comment.
pub fn is_allowed(b: u8) -> bool
    ensures { result ≡ is_allowed b }
{
    is_blank(b) || (33 <= b && b <= 126)
}

/// Whether the code of a line ends before the byte: a line feed, or the `#` of a comment.
pub fn ends_code(b: u8) -> bool
    ensures { result ≡ ends_code b }
{
    b == b'\n' || b == b'#'
}

pub fn is_digit(b: u8) -> bool
    ensures { result ≡ is_digit b }
{
    48 <= b && b <= 57
}

/// Whether a word may begin with the byte.
pub fn is_word_start(b: u8) -> bool
    ensures { result ≡ is_word_start b }
{
    (65 <= b && b <= 90) || (97 <= b && b <= 122) || b == b'_'
}

pub fn is_word_byte(b: u8) -> bool
    ensures { result ≡ is_word_byte b }
{
    is_word_start(b) || is_digit(b)
}

fn find_byte(bytes: &[u8], byte: u8) -> Option<usize>
    ensures { result ≡ position (λ b. b == byte) bytes.now }
{
    bytes.iter().position(|b| *b == byte)
}

fn find_stop(text: &[u8]) -> Option<usize>
    ensures { result ≡ position (λ b. ends_code b || not (is_allowed b)) text.now }
{
    text.iter().position(|b| ends_code(*b) || !is_allowed(*b))
}

fn find_no_word(bytes: &[u8]) -> Option<usize>
    ensures { result ≡ position (λ b. not (is_word_byte b)) bytes.now }
{
    bytes.iter().position(|b| !is_word_byte(*b))
}

/// How many bytes stand before the first line feed.
#[tactic(auto, using(crate::proofs::Positions::first_places))]
pub fn line_len(text: &[u8]) -> usize
    ensures value { result ≡ position_or_len is_line_feed text.now }
    ensures within { result ≤ length text.now }
{
    find_byte(text, b'\n').unwrap_or(text.len())
}

/// How many bytes stand before the first one that ends the code of a line or may not stand in it.
#[tactic(auto, using(crate::proofs::Positions::first_places))]
pub fn stop_len(text: &[u8]) -> usize
    ensures value { result ≡ position_or_len (λ b. ends_code b || not (is_allowed b)) text.now }
    ensures within { result ≤ length text.now }
{
    find_stop(text).unwrap_or(text.len())
}

/// How many bytes of a word are at the front.
#[tactic(auto, using(crate::proofs::Positions::first_places))]
pub fn word_len(bytes: &[u8]) -> usize
    ensures { result ≡ position_or_len (λ b. not (is_word_byte b)) bytes.now }
{
    find_no_word(bytes).unwrap_or(bytes.len())
}
