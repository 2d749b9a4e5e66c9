//! A call over the loopback, before its channels are made.

use fs_chan::SharedVars;
use fs_orig::Caller;
use fs_text::Txt;

/// A call over the loopback.
pub(crate) struct Call {
    pub(crate) exten: Txt,
    pub(crate) context: Txt,
    pub(crate) caller: Caller,
    /// The variables of both channels.
    pub(crate) vars: SharedVars,
    /// The identifier of its leg, where it is not the next one.
    pub(crate) uuid: Option<Txt>,
}

impl Drop for Call {
    fn drop(self) {
        let Call {
            exten: _exten,
            context: _context,
            caller: _caller,
            vars: _vars,
            uuid: _uuid,
        } = self;
    }
}
