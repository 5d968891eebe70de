//! Reading an image from a source.
ghost use Rattle.std.specs.Prelude.{◌≡◌, Err, IfOk};
ghost use Rattle.afr_image.specs.declared.image.ImageFault.{ImageFault};
ghost use Rattle.afr_law_runnable.specs.Runnable.{IsRunnable};
ghost use Rattle.afr_text.specs.Causes.{Rose};
ghost use Rattle.afr_cli.specs.Replay.{IsGivenImage, IsImageRefused};

use afr_image::{Image, ImageFault, ImageStop, codes, read_image_for};
use afr_law_runnable::every_spelled_plan_runs;
use afr_text::{ReadStop, Source, read_all};
use std::alloc::Global;

/// The longest source of an image, in bytes.
const LIMIT: usize = 33_554_432;

/// The fault of a source that is longer.
const TOO_LONG: ImageFault = ImageFault {
    at: 0,
    code: codes::LONG,
};

/// Why there is no image whose run could be made again.
#[derive(Drop)]
pub enum NoImage {
    ReadFault,
    Refused(ImageFault),
    NoMemory,
}

/// Reads the source to its end, as an image whose run is made again with so many turns. Its plan can be run.
pub fn read_recorded<S: Source>(alloc: Global, turns: u32, source: &mut S) -> Result<Image, NoImage>
    ensures ok { IfOk result (λ image. IsGivenImage turns (S.left source.old) (S.left source.new) image) }
    ensures runnable { IfOk result (λ image. IsRunnable image.plan) }
    ensures refused { (fault : ImageFault) → result ≡ Err (NoImage.Refused fault) → IsImageRefused turns (S.left source.old) (S.left source.new) fault }
    ensures read { result ≡ Err NoImage.ReadFault → Rose (S.faults source.old) (S.faults source.new) }
{
    let bytes = match read_all(alloc, source, LIMIT) {
        Ok(bytes) => bytes,
        Err(ReadStop::ReadFault) => return Err(NoImage::ReadFault),
        Err(ReadStop::TooLong) => return Err(NoImage::Refused(TOO_LONG)),
        Err(ReadStop::NoMemory) => return Err(NoImage::NoMemory),
    };
    match read_image_for(alloc, &bytes, turns) {
        Ok(image) => {
            every_spelled_plan_runs();
            Ok(image)
        }
        Err(ImageStop::Refused(fault)) => Err(NoImage::Refused(fault)),
        Err(ImageStop::NoMemory) => Err(NoImage::NoMemory),
    }
}
