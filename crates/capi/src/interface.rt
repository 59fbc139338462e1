// Which interface this is.
ghost use Rattle.std.specs.Prelude.{◌≡◌};
ghost use Rattle.capi.specs.Interface.{interface_number};

// VISCROMBAL_INTERFACE of the header.
const INTERFACE: u32 = 4;

// A change of a struct, of a number or of a place raises it.
pub fn viscrombal_interface() -> u32
    ensures { result ≡ interface_number }
{
    INTERFACE
}
