// The only place where a sign is put on a number; nothing but 0 has no sign.
ghost use Rattle.std.specs.Prelude.{◌≡◌, ◌<◌, ◌^◌};
ghost use Rattle.rules.specs.Items.{signed};

pub(crate) fn with_sign(negative: bool, v: u64) -> i64
    requires { v < 2 ^ 63 }
    ensures { result ≡ signed negative v }
{
    if negative { -(v as i64) } else { v as i64 }
}
