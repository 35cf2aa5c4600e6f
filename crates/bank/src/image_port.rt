use crate::image::IMAGE_BYTES;

// One port: open or shut, with the image of its table. It is a type beside `Port`, since that is also what a port means.
#[derive(Clone, Copy, PartialEq, Eq, Debug)]
pub struct ImagePort {
    pub open: bool,
    pub image: [u8; IMAGE_BYTES],
}
