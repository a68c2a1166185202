//! Sums of whole numbers, some of which are subtracted.

ghost use Rattle.std.specs.Prelude.{◌≡◌};
ghost use Rattle.script65.specs.AreaSums.{difference};

/// Returns the difference if it isn't negative and is below 2 ^ 32.
pub fn difference(added: u128, subtracted: u128) -> Option<u32>
    ensures { result ≡ difference added subtracted }
{
    let left = added.checked_sub(subtracted)?;
    u32::try_from(left).ok()
}
