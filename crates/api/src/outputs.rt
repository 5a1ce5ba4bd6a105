// What a function tells in its outputs, and the number that it returns.
ghost use Rattle.std.specs.Prelude.{◌≡◌, ◌-◌, ◌≤◌, ◌++◌, ◌∷◌, [], replicate, MatchResult};
ghost use Rattle.refusals.specs.Refusals.{number_of, place_of, shown_place};
ghost use Rattle.api.specs.Outputs.{bit, one, Shown};

use refusals::Refusal;

// Tells an answer in an output, or what goes with its refusal; the refusal's number, 0 for none.
pub(crate) fn tell<A, T: Drop, G: FnOnce(A) -> T, F: FnOnce(Refusal) -> T>(
    answer: Result<A, Refusal>,
    told: G,
    refused: F,
    out: &mut T,
) -> u64
    requires told { G.IsAlwaysCallable told }
    requires refused { F.IsAlwaysCallable refused }
    ensures { MatchResult answer (λ x. (result ≡ 0) × G.post told x out.new)
        (λ r. (result ≡ number_of r) × F.post refused r out.new) }
{
    match answer {
        Ok(x) => {
            *out = told(x);
            0
        }
        Err(r) => {
            *out = refused(r);
            u64::from(r)
        }
    }
}

// A count, 0 where refused.
pub(crate) fn tell_count(answer: Result<usize, Refusal>, count: &mut u64) -> u64
    ensures { Shown 1 one answer result (one count.new) }
{
    tell(answer, |n| n as u64, |_| 0, count)
}

// A number, 0 where refused.
pub(crate) fn tell_number(answer: Result<u64, Refusal>, number: &mut u64) -> u64
    ensures { Shown 1 one answer result (one number.new) }
{
    tell(answer, |n| n, |_| 0, number)
}

// Zeros, where nothing goes with a refusal.
pub(crate) fn zeros<const N: usize>(_: Refusal) -> [u64; N]
    ensures { result ≡ replicate N 0 }
{
    [0; N]
}

// The front that goes with a refusal (02, Item 6): 0 but with 4.
pub(crate) fn front(refusal: Refusal) -> u64
    ensures { result ≡ (place_of refusal).front }
{
    refusals::place_told(refusal).front as u64
}

// The front that goes with an answer: 0 where nothing is refused.
pub(crate) fn front_of(answer: &Result<u64, Refusal>) -> u64
    ensures { result ≡ (shown_place answer.now).front }
{
    match answer {
        Ok(_) => 0,
        Err(refusal) => front(*refusal),
    }
}

// Zeros, and behind them the front.
pub(crate) fn with_front<const N: usize>(refusal: Refusal) -> [u64; N]
    requires { 1 ≤ N }
    ensures { result ≡ replicate (N - 1) 0 ++ (place_of refusal).front ∷ [] }
{
    let mut out = [0; N];
    out[N - 1] = front(refusal);
    out
}

// Zeros, and behind them the front and its side: 1 where it is that of the data side's label.
pub(crate) fn with_side<const N: usize>(refusal: Refusal) -> [u64; N]
    requires { 2 ≤ N }
    ensures { result ≡ replicate (N - 2) 0 ++ (place_of refusal).front ∷ bit (place_of refusal).on_data ∷ [] }
{
    let mut out = [0; N];
    out[N - 2] = front(refusal);
    out[N - 1] = u64::from(refusals::place_told(refusal).on_data);
    out
}
