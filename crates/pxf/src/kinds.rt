// Byte kinds, for C.
ghost use Rattle.std.specs.Prelude.{◌≡◌};
ghost use Rattle.base.specs.Kinds.{kind_of};

// The entry of a byte in the table of byte kinds.
#[unsafe(no_mangle)]
pub extern "C" fn pxf_byte_kind(byte: u8) -> u8
    ensures { result ≡ kind_of byte }
{
    base::kinds::byte_kind(byte)
}
