// Recipes: their check (document 01, refusal 14), and the files one after the other.
#![tactic(auto)]

ghost use Rattle.std.specs.Prelude.{◌≡◌, ◌+◌, ◌*◌, ◌≤◌, length, drop};
ghost use Rattle.spec.specs.Bytes.{part, field_at};
ghost use Rattle.spec.specs.Recipes.{files_whole, recipes_code};
ghost use Rattle.spec.specs.Refusal.{number};

use spec::Refusal;

// The chunk count of the file at `at`; at 0, the file count.
pub fn count_at(recipes: &[u8], at: usize) -> usize
    requires { at + 4 ≤ length recipes.now }
    ensures { result ≡ field_at recipes.now at 4 }
{
    field::read(recipes, at, 4) as usize
}

// The fingerprints of the file at `at`, a slice of the recipes.
pub fn file_at(recipes: &[u8], at: usize) -> &[u8]
    requires { at + 4 + 20 * field_at recipes.now at 4 ≤ length recipes.now }
    ensures { result.now ≡ part recipes.now (at + 4) (20 * field_at recipes.now at 4) }
{
    let n = count_at(recipes, at);
    let from = at + 4;
    &recipes[from..from + 20 * n]
}

// `count` files are there from the fourth byte on, whole, and nothing else.
fn files_whole(recipes: &[u8], count: usize) -> bool
    requires { 4 ≤ length recipes.now }
    ensures { result ≡ files_whole count (drop 4 recipes.now) }
{
    let mut at = 4;
    for _ in 0..count {
        if recipes.len() - at < 4 {
            return false;
        }
        let n = count_at(recipes, at);
        // a count that lies is refused before its product is taken
        if (recipes.len() - at - 4) / 20 < n {
            return false;
        }
        at += 4 + 20 * n;
    }
    at == recipes.len()
}

// The check of recipes.
#[tactic(auto, unfolding(spec::specs::Recipes::recipes_code))]
pub fn check(recipes: &[u8]) -> Result<(), Refusal>
    ensures { number result ≡ recipes_code recipes.now }
{
    if recipes.len() < 4 {
        return Err(Refusal::RecipesWrong);
    }
    let count = count_at(recipes, 0);
    if count <= 65535 && files_whole(recipes, count) {
        Ok(())
    } else {
        Err(Refusal::RecipesWrong)
    }
}
