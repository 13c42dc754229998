// What a request finds over the store.
ghost use Rattle.std.specs.Prelude.{◌≡◌};
ghost use Rattle.dav_model.specs.Trail.{target_of};
ghost use Rattle.dav_local.specs.LocalFiles.{local_file};
ghost use Rattle.dav_local.specs.Made.{MadeAt};
ghost use Rattle.dav_local.specs.Ways.{rules_with};
ghost use Rattle.dav_config.specs.Finding.{IsHeldIn};
ghost use Rattle.dav_config.specs.Handling.{the_served};
ghost use Rattle.dav_handler.specs.By.{by_store, over_of};
ghost use Rattle.dav_handler.specs.Found.{Finds, GivesFound, said_in};
ghost use Rattle.dav_handler.specs.Laws.{Laws};

use dav_config::{Asked, Content, Found, find};
use dav_core::Disk;
use dav_io::{NoMemory, Octets};
use dav_local::{LocalFs, LocalFsFile};
use dav_local_laws::{
    calls_teach_nothing, entries_have_the_moment, local_stores_ask_few, local_stores_follow_rules,
    local_stores_refuse_few, reads_are_right, reads_learn_what_stands,
};
use dav_memory::Remember;
use dav_methods::writes_lead_on;
use dav_model::Settings;
use dav_store::{DavFile, DavFileSystem, GuardedFileSystem, OneBody};
use http::Request;
use std::alloc::Global;

// Keeps a body of which something is left; another is ended.
fn give<D: Disk, R: Remember>(
    store: &mut LocalFs<D, R>,
    found: Found<LocalFsFile>,
) -> Found<LocalFsFile>
    requires { IsHeldIn local_file (D.state store.old.disk) found.body }
    ensures outcome { result.outcome ≡ found.outcome }
    ensures gives { GivesFound (D.state store.old.disk) found.body result.body (D.state store.new.disk) }
    ensures rest { store.new ≡ record store.old { disk = store.new.disk } }
    ensures loan { D.loan store.new.disk ≡ D.loan store.old.disk }
{
    let Found { outcome, body } = found;
    let Some(open) = body else {
        return Found {
            outcome,
            body: None,
        };
    };
    if open.next_most() == 0 {
        open.close(DavFileSystem::disk(store));
        return Found {
            outcome,
            body: None,
        };
    }
    Found {
        outcome,
        body: Some(open),
    }
}

// A local store serves by the rules, from its state on: what its laws say of each call.
fn local_stores_serve<D: Disk, R: Remember>(store: &LocalFs<D, R>, settings: &Settings)
    ensures { Laws (the_served ⟦<LocalFs<D, R> as GuardedFileSystem<()>>⟧ ⟦<LocalFsFile as DavFile<D>>⟧)
        (by_store R.state settings.now) tt store.now }
{
    reads_are_right(store);
    reads_learn_what_stands(store);
    local_stores_ask_few(store);
    local_stores_refuse_few(store);
    local_stores_follow_rules(store, settings);
    calls_teach_nothing(store);
    writes_lead_on::<LocalFs<D, R>, ()>();
}

/// What a request finds, by the way of a handler. What the laws of the store say of its calls joins it to the rules.
pub fn find_for<D: Disk, R: Remember>(
    alloc: Global,
    settings: &Settings,
    store: &mut LocalFs<D, R>,
    request: &Request<Octets>,
) -> Result<Found<LocalFsFile>, NoMemory>
    ensures done { Finds (over_of D.state R.state settings.now store.old) (said_in request.now)
        (target_of (rules_with settings.now store.old.ways) request.now) result
        (over_of D.state R.state settings.now store.new) }
    ensures made { MadeAt store.old.moment (R.state store.old.memory) (R.state store.new.memory) }
    ensures loan { D.loan store.new.disk ≡ D.loan store.old.disk }
{
    local_stores_serve(store, settings);
    entries_have_the_moment(store);
    let asked = Asked {
        settings,
        head: request,
        credentials: &(),
        now: None,
    };
    let mut content = Content::<OneBody>::Whole(request.body().as_slice());
    match find(alloc, &asked, store, &mut content) {
        Ok(found) => Ok(give(store, found)),
        Err(error) => Err(error),
    }
}
