//! Which call a request is (OCI Distribution 1.1, "Endpoints").
ghost use Rattle.hr_wire.specs.Call.{Gives, IsCallOf, call_with};

use crate::media::media_in;
use crate::ranges::from_in;
use hr_call::Call;
use hr_http1::Request;
use hr_route::{NoRoute, Route, route_of};
use std::alloc::Global;

const BAD: NoRoute = NoRoute::Status { status: 400 };

/// The call that a request is. Its first line is refused as `route_of` refuses it; 400 is also a
/// manifest that is put under no plain media type, and a chunk whose `Content-Range` doesn't fit its
/// length. A chunk without this line lies behind all bytes of its upload session.
pub fn call_of(alloc: Global, request: &Request) -> Result<Call, NoRoute>
    ensures { IsCallOf request.now result }
{
    let route = route_of(alloc, request.verb, request.target.view())?;
    call_with(alloc, route, request)
}

// The call of what a first line asks for, by the lines and the body of its request.
fn call_with(alloc: Global, route: Route, request: &Request) -> Result<Call, NoRoute>
    ensures { Gives (call_with route request.now) result }
{
    match route {
        Route::Ping => Ok(Call::Ping),
        Route::Catalog { last } => Ok(Call::Catalog { last }),
        Route::Tags { repo, last } => Ok(Call::Tags { repo, last }),
        Route::HeadManifest { repo, reference } => Ok(Call::HeadManifest { repo, reference }),
        Route::GetManifest { repo, reference } => Ok(Call::GetManifest { repo, reference }),
        Route::HeadBlob { repo, digest } => Ok(Call::HeadBlob { repo, digest }),
        Route::GetBlob { repo, digest } => Ok(Call::GetBlob { repo, digest }),
        Route::BeginUpload { repo } => Ok(Call::BeginUpload { repo }),
        Route::EndUpload { at, digest } => {
            let bytes = request.body.copy(alloc)?;
            Ok(Call::EndUpload { at, digest, bytes })
        }
        Route::PutManifest { repo, reference } => {
            let Some(media) = media_in(alloc, request.heads.view())? else {
                return Err(BAD);
            };
            let bytes = request.body.copy(alloc)?;
            Ok(Call::PutManifest {
                repo,
                reference,
                media,
                bytes,
            })
        }
        Route::Chunk { at } => {
            let Some(from) = from_in(request.heads.view(), request.body.view().len()) else {
                return Err(BAD);
            };
            let bytes = request.body.copy(alloc)?;
            Ok(Call::Chunk { at, from, bytes })
        }
        Route::Progress { at } => Ok(Call::Progress { at }),
    }
}
