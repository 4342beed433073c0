//! What kinds are in nets.
ghost use Rattle.std.specs.Prelude.{◌≡◌, ◌⊎◌};
ghost use Rattle.rx_meaning.specs.Costs.{blocks_of};
ghost use Rattle.rx_compile.specs.Compiled.{file_kind};
ghost use Rattle.rx_compile.specs.Arms.{is_signed};

use rx_language::NameKind;
use rx_params::Kind;

/// The kind of a number in nets and files, which know no sign.
pub(crate) fn file_kind(kind: NameKind) -> Kind
    ensures { result ≡ file_kind kind }
{
    match kind {
        NameKind::Int(_) | NameKind::Sint(_) => Kind::Int,
        NameKind::Bit => Kind::Bit,
    }
}

/// Whether a value of the kind may stand for a negative number.
pub(crate) fn is_signed(kind: NameKind) -> bool
    ensures { result ≡ is_signed kind }
{
    matches!(kind, NameKind::Sint(_))
}

/// How many blocks a value of the kind has.
pub(crate) fn blocks_of(space: u32, kind: NameKind) -> u32
    requires { (space ≡ 2) ⊎ (space ≡ 3) }
    ensures { result ≡ blocks_of space kind }
{
    match kind {
        NameKind::Int(width) | NameKind::Sint(width) => width / space,
        NameKind::Bit => 1,
    }
}
