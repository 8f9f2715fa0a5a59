// An image that is searched, with its parameters: what holds of them together stands here once.
ghost use Rattle.frame_pass.specs.Theorems.{SoundFrame};

use frame_params::FrameParams;

// An image of w by h and parameters that no rule refuses, and whether peaks are chosen by exact values.
#[derive(Clone, Copy)]
pub(crate) struct CheckedFrame<'a> {
    pub(crate) img: &'a [u8],
    pub(crate) w: usize,
    pub(crate) h: usize,
    pub(crate) p: FrameParams,
    pub(crate) exact: bool,
    ghost sound: { SoundFrame p img.now w h },
}
