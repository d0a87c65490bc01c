// Records one after the other, each of which has to pass a test.
ghost use Rattle.std.specs.Prelude.{◌≡◌, Bool, List, ℕ, [], ◌<◌, length, get_or};
ghost use Rattle.settings.specs.Records.{every};

// Whether each of n records passes, by a test of its number: whatever the records are, if the test says `passes` of each of
// them, so does this of all.
pub fn check_each<F: Fn(usize) -> bool>(n: usize, test: F) -> bool
    requires { (i : ℕ) → i < n → F.pre test i }
    ensures { (passes : List ℕ → Bool) (records : List (List ℕ)) → length records ≡ n → ((i : ℕ) (r : Bool) → i < n → F.post test i r → r ≡ passes (get_or records i [])) → result ≡ every passes records }
{
    for i in 0..n {
        if !test(i) {
            return false;
        }
    }
    true
}
