/// Why nothing was sealed or opened.
#[derive(Clone, Copy, Debug, PartialEq, Eq)]
pub enum CcmErr {
    /// The nonce isn't 7 to 13 bytes, the tag's length isn't even from 4 to 16, there are 65,280 bytes of associated
    /// data or more, or the text's length needs more bytes than the nonce leaves of 15.
    BadParams,
    /// The tag isn't that of the text.
    BadTag,
}
