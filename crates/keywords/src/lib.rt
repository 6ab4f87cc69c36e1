// Keyword lists: the keyword check, and where an accepted list has its keywords (document 01, "Words").
#![tactic(auto)]

ghost use Rattle.std.specs.Prelude.{◌≡◌, [], ◌∷◌, ◌+◌, ◌≤◌, ◌<◌, max, length, drop, get_or};
ghost use Rattle.spec.specs.Bytes.{same, contains, twice};
ghost use Rattle.spec.specs.Outcome.{first_number, keywords_alike};
ghost use Rattle.spec.specs.Keywords.{folded, folded_keywords, read_code, front_tests, keyword_code, keyword_front_code};
ghost use Rattle.spec.specs.Refusal.{number};
ghost use Rattle.keywords.specs.Parsed.{ReadableList, Places, parsed_of};

use spec::Refusal;

// A list that was read: how many keywords, the fold flag, the list's length, the longest keyword's length; for each keyword its first
// byte's place in the list and its length.
#[derive(Clone, Copy)]
pub struct Keywords {
    pub count: usize,
    pub flag: u8,
    pub size: usize,
    pub most: usize,
    pub start: [usize; 16],
    pub len: [usize; 16],
}

// Splits a list that reads without fault, whether or not keywords are alike.
fn split(list: &[u8]) -> Keywords
    requires { ReadableList list.now }
    ensures { result ≡ parsed_of list.now }
{
    let count = usize::from(list[0]);
    let mut start = [0usize; 16];
    let mut len = [0usize; 16];
    let mut most = 0;
    let mut at = 2;
    for k in 0..count {
        let n = usize::from(list[at]);
        start[k] = at + 1;
        len[k] = n;
        most = most.max(n);
        at += 1 + n;
    }
    Keywords {
        count,
        flag: list[1],
        size: at,
        most,
        start,
        len,
    }
}

// Splits a list that the keyword check accepts, left-over bytes or not.
pub fn parse(list: &[u8]) -> Keywords
    requires { keyword_front_code list.now ≡ 0 }
    ensures { result ≡ parsed_of list.now }
{
    split(list)
}

// The code of the keywords behind the list's first two bytes.
fn read_keywords(list: &[u8], count: usize) -> Result<(), Refusal>
    requires { 2 ≤ length list.now }
    ensures { number result ≡ read_code count (drop 2 list.now) }
{
    let mut at = 2;
    for _ in 0..count {
        if list.len() <= at {
            return Err(Refusal::KeywordsCut);
        }
        let n = usize::from(list[at]);
        if !(1..=32).contains(&n) {
            return Err(Refusal::KeywordLength);
        }
        if list.len() - at <= n {
            return Err(Refusal::KeywordsCut);
        }
        at += 1 + n;
    }
    Ok(())
}

// The code of the tests that read the list from the front.
fn read_front(list: &[u8]) -> Result<(), Refusal>
    ensures { number result ≡ first_number (front_tests list.now) }
{
    if list.len() < 2 {
        return Err(Refusal::KeywordsCut);
    }
    let count = usize::from(list[0]);
    if !(1..=16).contains(&count) || 1 < list[1] {
        return Err(Refusal::KeywordsHeader);
    }
    read_keywords(list, count)
}

// The two compare alike.
fn alike(flag: u8, a: &[u8], b: &[u8]) -> bool
    ensures { result ≡ same (folded flag a.now) (folded flag b.now) }
{
    a.len() == b.len()
        && a.iter().zip(b).all(|(&x, &y)| folding::fold(flag, x) == folding::fold(flag, y))
}

// Keywords i and j compare alike.
fn alike_at(
    list: &[u8],
    flag: u8,
    count: usize,
    start: &[usize; 16],
    len: &[usize; 16],
    i: usize,
    j: usize,
) -> bool
    requires { Places list.now flag count start.now len.now × (i < count) × (j < count) }
    ensures { result ≡ same (get_or (folded_keywords list.now) i []) (get_or (folded_keywords list.now) j []) }
{
    let a = start[i];
    let b = start[j];
    let m = len[i];
    let n = len[j];
    alike(flag, &list[a..a + m], &list[b..b + n])
}

// A keyword after keyword i compares alike with it.
fn again(
    list: &[u8],
    flag: u8,
    count: usize,
    start: &[usize; 16],
    len: &[usize; 16],
    i: usize,
) -> bool
    requires { Places list.now flag count start.now len.now × (i < count) }
    ensures { result ≡ contains (get_or (folded_keywords list.now) i []) (drop (i + 1) (folded_keywords list.now)) }
{
    (i + 1..count).any(|other| alike_at(list, flag, count, start, len, i, other))
}

// Some two keywords compare alike.
fn repeats(list: &[u8], flag: u8, count: usize, start: &[usize; 16], len: &[usize; 16]) -> bool
    requires { Places list.now flag count start.now len.now }
    ensures { result ≡ twice (folded_keywords list.now) }
{
    (0..count).any(|one| again(list, flag, count, start, len, one))
}

// No two keywords of the list that was read compare alike.
fn distinct(list: &[u8], k: &Keywords) -> Result<(), Refusal>
    requires { Places list.now k.now.flag k.now.count k.now.start k.now.len }
    ensures { number result ≡ first_number ((twice (folded_keywords list.now), keywords_alike) ∷ []) }
{
    if repeats(list, k.flag, k.count, &k.start, &k.len) {
        return Err(Refusal::KeywordsAlike);
    }
    Ok(())
}

// The keyword check without its left-over bytes.
pub fn check_front(list: &[u8]) -> Result<(), Refusal>
    ensures { number result ≡ keyword_front_code list.now }
{
    read_front(list)?;
    distinct(list, &split(list))
}

// The keyword check.
pub fn check(list: &[u8]) -> Result<(), Refusal>
    ensures { number result ≡ keyword_code list.now }
{
    read_front(list)?;
    let k = split(list);
    if k.size < list.len() {
        return Err(Refusal::KeywordsCut);
    }
    distinct(list, &k)
}
