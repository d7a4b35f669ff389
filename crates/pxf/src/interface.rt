// The number of the interface, for C.
ghost use Rattle.std.specs.Prelude.{◌≡◌};
ghost use Rattle.pxf.specs.Interface.{interface_number};

// The number of the interface: a caller compares it with the `PXF_INTERFACE` of the header that it was built with.
#[unsafe(no_mangle)]
pub extern "C" fn pxf_interface() -> u32
    ensures { result ≡ interface_number }
{
    1
}
