//! Publishing of what all processes did inside their heaps.
ghost use Rattle.std.specs.Prelude.{◌≡◌, ◌<◌, ℕ, length};
ghost use Rattle.k_host.specs.Calls.{HasPublishedIn};
ghost use Rattle.k_keeper.specs.Keeping.{IsKept, objects_in};
ghost use Rattle.k_keeper.specs.Publishing.{HasPublishedEach};

use k_host::Host;
use k_types::Pid;

/// Publishes what the process did inside its heap. There is room for it, since the room for what is not published yet is kept.
fn publish(host: &mut Host, pid: Pid)
    requires kept { IsKept host.old 0 }
    requires there { pid.0 < length host.old.guests }
    ensures published { HasPublishedIn host.old host.new pid }
    ensures kept { (left : ℕ) → IsKept host.old left → IsKept host.new left }
    ensures objects { objects_in host.new ≡ objects_in host.old }
{
    let _came = host.publish(pid);
    host.serves();
}

/// Publishes what each process did inside its heap, in the order of their numbers.
pub(crate) fn publish_each(host: &mut Host)
    requires { IsKept host.old 0 }
    ensures published { HasPublishedEach host.old host.new }
    ensures kept { (left : ℕ) → IsKept host.old left → IsKept host.new left }
    ensures objects { objects_in host.new ≡ objects_in host.old }
{
    for p in 0..host.processes() {
        publish(host, Pid(p));
    }
}
