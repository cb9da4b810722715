// What a host call returns to C.
ghost use Rattle.std.specs.Prelude.{◌≡◌, ◌^◌, ◌<◌, IfOk};
ghost use Rattle.host.specs.Known.{told};

use claims::Refusal;

// A length or a count, or minus the number of the question answered no. No buffer is so long that a signed number does not tell it.
pub(crate) fn told(outcome: Result<usize, Refusal>) -> i64
    requires { IfOk outcome (λ n. n < 2 ^ 63) }
    ensures { result ≡ told outcome }
{
    match outcome {
        Ok(size) => size as i64,
        Err(refusal) => -(refusal.number() as i64),
    }
}
