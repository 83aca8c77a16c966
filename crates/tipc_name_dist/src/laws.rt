//! Laws of name distribution, for callers: each is the contract of a function that does nothing.

ghost use Rattle.std.specs.Prelude.{◌≡◌, ◌<◌, ◌++◌, ◌∷◌, ℕ, List, [], None, Some, false, true, filter, find, length};
ghost use Rattle.std.specs.List.{list_any};
ghost use Rattle.tipc_types.specs.declared.message_forms.Message.{Message};
ghost use Rattle.tipc_types.specs.declared.services.Publication.{Publication};
ghost use Rattle.tipc_types.specs.Tables.{is_of, IsTable};
ghost use Rattle.tipc_journal.specs.Names.{is_clusterwide};
ghost use Rattle.tipc_name_dist.specs.Agreeing.{Agrees, AreOwn, has_key, without_key};
ghost use Rattle.tipc_name_dist.specs.Applying.{applied, applied_each};
ghost use Rattle.tipc_name_dist.specs.Items.{item_of, IsBulk};

/// The items of a node's messages fit at a peer, and make its table agree with what the node has published.
///
/// `begin`: a table that holds nothing of the node agrees with what is live, once the messages are applied with which
/// a contact begins. `published`, `withdrawn`: so it goes on with the message of one more publication that is seen in
/// the cluster, or of a withdrawal. `unseen`, `unseen_withdrawn`: of a publication of node scope no message is sent,
/// and none is needed.
pub fn items_make_tables_agree()
    ensures begin { (node : ℕ) (live table : List Publication) (messages : List Message) →
        AreOwn node live → IsTable table → filter (is_of node) table ≡ [] → IsBulk live messages →
        ((applied_each node table messages).bad ≡ None) ×
        Agrees node live (applied_each node table messages).table }
    ensures published { (node : ℕ) (live table : List Publication) (p : Publication) →
        AreOwn node (live ++ p ∷ []) → IsTable table → Agrees node live table →
        is_clusterwide p.scope ≡ true →
        ((applied node table (Message.Items false (item_of p ∷ []))).bad ≡ None) ×
        Agrees node (live ++ p ∷ []) (applied node table (Message.Items false (item_of p ∷ []))).table }
    ensures withdrawn { (node : ℕ) (live table : List Publication) (p : Publication) →
        AreOwn node live → IsTable table → Agrees node live table → find (has_key p.key) live ≡ Some p →
        is_clusterwide p.scope ≡ true →
        ((applied node table (Message.Items true (item_of p ∷ []))).bad ≡ None) ×
        Agrees node (without_key p.key live) (applied node table (Message.Items true (item_of p ∷ []))).table }
    ensures unseen { (node : ℕ) (live table : List Publication) (p : Publication) →
        Agrees node live table → is_clusterwide p.scope ≡ false → Agrees node (live ++ p ∷ []) table }
    ensures unseen_withdrawn { (node : ℕ) (live table : List Publication) (p : Publication) →
        AreOwn node live → Agrees node live table → find (has_key p.key) live ≡ Some p →
        is_clusterwide p.scope ≡ false → Agrees node (without_key p.key live) table }
{}
