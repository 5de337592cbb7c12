//! How tests compare values.
ghost use Rattle.std.specs.Prelude.{◌≡◌, ◌↔◌, IsTrue, IsOk, IfErr};

/// `Ok` if two values are equal, and otherwise `Err` with both.
pub fn compared<T: PartialEq + Drop>(got: T, want: T) -> Result<(), (T, T)>
    ensures equal { IsOk result ↔ IsTrue (T.eq got want) }
    ensures both { IfErr result (λ both. both ≡ (got, want)) }
{
    if got == want {
        Ok(())
    } else {
        Err((got, want))
    }
}

/// Checks that two values are equal: `same!(&rt, got, want)`. A failure names the line of this call, and shows both. (An
/// `assert_eq!` in each place would make the proofs of tests several times as long. No library may have a function that
/// takes a handle with `Abort`.)
#[macro_export]
macro_rules! same {
    ($rt:expr, $got:expr, $want:expr $(,)?) => {
        $crate::compared($got, $want).expect($rt, "got and want")
    };
}
