// Many requests under one validation, for class records of w words: the records are validated once, then all requests are served.
#![tactic(auto)]

ghost use Rattle.std.specs.Prelude.{◌≡◌, ◌≤◌};
ghost use Rattle.answers.specs.Outcome.{of_batch};
ghost use Rattle.batch.specs.Batch.{batch_outcome, batch_pool, batch_answers};

use answers::Refusal;

// Serves all requests under one validation, with the answers in a second slice.
pub fn batch(pool: &mut [u8], w: u8, requests: &[u64], answers: &mut [u64]) -> Result<(), Refusal>
    requires { 2 ≤ w }
    ensures answer { of_batch result ≡ batch_outcome w pool.old requests.now answers.old }
    ensures pool { pool.new ≡ batch_pool w pool.old requests.now answers.old }
    ensures answers { answers.new ≡ batch_answers w pool.old requests.now answers.old }
{
    if answers.len() < requests.len() {
        return Err(Refusal::AnswersTooShort);
    }
    let pages = calls::sound_pages(pool, w)?;
    serve::serve_all(pool, w, pages, requests, answers);
    Ok(())
}
