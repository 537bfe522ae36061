//! What the profile leaves out at a port.

/// What a VGA has at a port, and the profile leaves out.
#[derive(Clone, Copy, PartialEq, Eq, Debug)]
pub enum LeftOut {
    /// Input status 0, read at 3C2.
    InputStatus0,
    /// Video subsystem enable, at 3C3.
    SubsystemEnable,
    /// The DAC's state, read at 3C7.
    DacState,
    /// Feature control, read at 3CA, and written at 3DA or 3BA.
    FeatureControl,
}
